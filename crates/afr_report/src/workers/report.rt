//! The whole report of a crawl: as any other, but for the lines of the workers.
ghost use Rattle.std.specs.Prelude.{◌≡◌, ◌++◌, ◌<◌, ◌≤◌, IfOk, OnOk, length, reverse, string_bytes, true};
ghost use Rattle.afr_report_info.specs.Shown.{HoldTables};
ghost use Rattle.afr_lines.specs.Work.{ended};
ghost use Rattle.afr_model.specs.Actors.{rounds_of};
ghost use Rattle.afr_model.specs.Report.{started_bricks};
ghost use Rattle.afr_model.specs.ReportHealers.{healer_text};
ghost use Rattle.afr_report.specs.Own.{places};
ghost use Rattle.afr_report.specs.Workers.{heals_text, items_given, report_for, tasks_ended, workers_line};

use crate::clients::push_clients;
use crate::healers::push_healer;
use crate::own::places;
use crate::report::push_head;
use crate::workers::tally::{Tally, tasks_ended};
use crate::workers::task_heals::push_task_heals;
use afr_base::{ActorId, BrickSet, FIRST_HEALER, NoMemory};
use afr_log::Log;
use afr_object::List;
use afr_plan::Plan;
use afr_report_info::print_info;
use afr_report_words::{push_long_number, push_word};
use afr_server::Server;
use std::alloc::Global;

/// The report of a crawled plan and of its log, the oldest line first, where the servers' bricks hold the tables that the log
/// has made; so many works have ended, and so many items were given. It goes over the log a few times, and beside it takes
/// what the part on objects takes, and O(k log k) for k heals.
pub fn print_crawl(
    alloc: Global,
    plan: &Plan,
    log: &Log,
    started: BrickSet,
    servers: &[Server],
    all: Tally,
    items: u128,
) -> Result<String, NoMemory>
    requires few { plan.now.shape.n ≤ 5 }
    requires clients { length plan.now.clients ≤ 16 }
    requires crawler { 0 < length plan.now.healers }
    requires started { started ≡ started_bricks plan.now.shape.n (reverse log.now.items) }
    requires second { all.second ≡ ended 18 (reverse log.now.items) }
    requires third { all.third ≡ ended 19 (reverse log.now.items) }
    requires items { items ≡ items_given plan.now (reverse log.now.items) }
    ensures ok { HoldTables plan.now (reverse log.now.items) started servers.now → IfOk result (λ text. string_bytes text ≡ report_for true plan.now (reverse log.now.items)) }
{
    let mut out = String::new(alloc);
    push_head(&mut out, plan.shape, log.len())?;
    let lists = places(alloc, log)?;
    push_clients(
        &mut out,
        &plan.words,
        plan.clients.as_slice(),
        lists.as_slice(),
        log,
    )?;
    push_crawler(&mut out, plan, lists.as_slice(), log)?;
    push_workers(&mut out, log, all, items)?;
    print_info(&mut out, plan, servers, started)?;
    Ok(out)
}

/// Adds how far the crawler has come.
fn push_crawler(
    out: &mut String,
    plan: &Plan,
    lists: &[List<u32>],
    log: &Log,
) -> Result<(), NoMemory>
    requires crawler { 0 < length plan.now.healers }
    requires lists { lists.now ≡ places (reverse log.now.items) }
    ensures ok { OnOk result (string_bytes out.new ≡ string_bytes out.old ++ healer_text plan.now.words 17 (rounds_of plan.now 17) (reverse log.now.items)) }
{
    let rounds = plan.healers.item(0);
    push_healer(out, &plan.words, ActorId(FIRST_HEALER), rounds, lists, log)
}

/// Adds how many tasks have ended, of how many items, and the heals of those tasks.
fn push_workers(out: &mut String, log: &Log, all: Tally, items: u128) -> Result<(), NoMemory>
    requires second { all.second ≡ ended 18 (reverse log.now.items) }
    requires third { all.third ≡ ended 19 (reverse log.now.items) }
    ensures ok { OnOk result (string_bytes out.new ≡ string_bytes out.old ++ (workers_line (tasks_ended (reverse log.now.items)) items ++ heals_text (reverse log.now.items))) }
{
    push_counts(out, tasks_ended(all), items)?;
    push_task_heals(out, log, all)
}

fn push_counts(out: &mut String, tasks: u128, items: u128) -> Result<(), NoMemory>
    ensures ok { OnOk result (string_bytes out.new ≡ string_bytes out.old ++ workers_line tasks items) }
{
    push_word(out, "workers ")?;
    push_long_number(out, tasks)?;
    push_word(out, " of ")?;
    push_long_number(out, items)?;
    push_word(out, "\n")
}
