//! The summary of a plan and its log.
ghost use Rattle.std.specs.Prelude.{◌≡◌, ◌≤◌, IfOk, reverse, string_bytes};
ghost use Rattle.afr_report_info.specs.Shown.{HoldTables};
ghost use Rattle.afr_model.specs.Report.{started_bricks};
ghost use Rattle.afr_report.specs.Summary.Summary.{summary_of};

use crate::summed::ends::count_ends;
use crate::summed::lines::{push_ends, push_objects, push_size};
use afr_base::{BrickSet, NoMemory};
use afr_log::Log;
use afr_plan::Plan;
use afr_report_info::count_objects;
use afr_server::Server;
use std::alloc::Global;

/// The summary of a plan and of its log, the oldest line first, where the servers' bricks hold the tables that the log has
/// made. It goes over the log once, and over the objects that the indexes of the started bricks list.
pub fn print_summary(
    alloc: Global,
    n: u32,
    plan: &Plan,
    log: &Log,
    started: BrickSet,
    servers: &[Server],
) -> Result<String, NoMemory>
    requires few { plan.now.shape.n ≤ 5 }
    requires started { started ≡ started_bricks plan.now.shape.n (reverse log.now.items) }
    ensures ok { HoldTables plan.now (reverse log.now.items) started servers.now → IfOk result (λ text. string_bytes text ≡ summary_of plan.now (reverse log.now.items) n) }
{
    let counts = count_objects(alloc, plan, servers, started)?;
    let mut out = String::new(alloc);
    push_size(&mut out, n, log.len())?;
    push_ends(&mut out, count_ends(log))?;
    push_objects(&mut out, counts)?;
    Ok(out)
}
