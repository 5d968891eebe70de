//! The whole report: the volume, the length of the log, the clients, the healers, and what needs heal.
ghost use Rattle.std.specs.Prelude.{◌≡◌, ◌++◌, ◌≤◌, IfOk, OnOk, codes, decimal, length, reverse, string_bytes};
ghost use Rattle.afr_report_info.specs.Shown.{HoldTables};
ghost use Rattle.afr_model.specs.Report.{started_bricks, volume_text};
ghost use Rattle.afr_model.specs.ReportHealers.{report_of};

use crate::clients::push_clients;
use crate::healers::push_healers;
use crate::own::places;
use afr_base::{BrickSet, NoMemory, Shape};
use afr_log::Log;
use afr_plan::Plan;
use afr_report_info::print_info;
use afr_server::Server;
use std::alloc::Global;

/// The report of a plan and of its log, the oldest line first, where the servers' bricks hold the
/// tables that the log has made. It goes over the log once, then over the lines that it prints, and
/// beside it takes what the part on objects takes.
pub fn print_report(
    alloc: Global,
    plan: &Plan,
    log: &Log,
    started: BrickSet,
    servers: &[Server],
) -> Result<String, NoMemory>
    requires few { plan.now.shape.n ≤ 5 }
    requires clients { length plan.now.clients ≤ 16 }
    requires healers { length plan.now.healers ≤ 3 }
    requires started { started ≡ started_bricks plan.now.shape.n (reverse log.now.items) }
    ensures ok { HoldTables plan.now (reverse log.now.items) started servers.now → IfOk result (λ text. string_bytes text ≡ report_of plan.now (reverse log.now.items)) }
{
    let mut out = String::new(alloc);
    push_head(&mut out, plan.shape, log.len())?;
    let lists = places(alloc, log)?;
    push_clients(
        &mut out,
        &plan.words,
        plan.clients.as_slice(),
        lists.as_slice(),
        log,
    )?;
    push_healers(
        &mut out,
        &plan.words,
        plan.healers.as_slice(),
        lists.as_slice(),
        log,
    )?;
    print_info(&mut out, plan, servers, started)?;
    Ok(out)
}

/// Adds the kind of volume and the length of the log.
pub fn push_head(out: &mut String, shape: Shape, lines: usize) -> Result<(), NoMemory>
    ensures ok { OnOk result (string_bytes out.new ≡ string_bytes out.old ++ (volume_text shape ++ codes "lines " ++ decimal lines ++ codes "\n")) }
{
    push_volume(out, shape)?;
    write!(out, "lines {lines}\n")?;
    Ok(())
}

fn push_volume(out: &mut String, shape: Shape) -> Result<(), NoMemory>
    ensures ok { OnOk result (string_bytes out.new ≡ string_bytes out.old ++ volume_text shape) }
{
    let n = shape.n;
    let kind = if shape.arbiter { "arbiter" } else { "replica" };
    write!(out, "afr {kind} {n}\n")?;
    Ok(())
}
