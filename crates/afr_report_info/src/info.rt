//! The started bricks and the objects on them, as they stand after a log.
ghost use Rattle.std.specs.Prelude.{◌≡◌, ◌++◌, ◌≤◌, List, OnOk, string_bytes};
ghost use Rattle.afr_lines.specs.declared.line.Line.{Line};
ghost use Rattle.afr_model.specs.ReportHealers.{info_of};
ghost use Rattle.afr_model.specs.Report.{started_bricks};
ghost use Rattle.afr_base.specs.Rising.{IsRising};
ghost use Rattle.afr_report_info.specs.Shown.{HoldTables, info_shown};

use crate::objects::push_objects;
use crate::reach::push_reach;
use afr_base::{BrickSet, NoMemory};
use afr_plan::Plan;
use afr_server::Server;

/// Adds what needs heal, where the servers' bricks hold the tables that a log has made. It takes
/// O(log n) for each object that the index of a started brick lists, on a brick of n objects. It
/// doesn't read the log, and asks nothing of the servers: no request is counted.
pub fn print_info(
    out: &mut String,
    plan: &Plan,
    servers: &[Server],
    started: BrickSet,
) -> Result<(), NoMemory>
    requires few { plan.now.shape.n ≤ 5 }
    requires rising { IsRising 0 started }
    ensures ok { (log : List Line) → started ≡ started_bricks plan.now.shape.n log → HoldTables plan.now log started servers.now
        → OnOk result (string_bytes out.new ≡ string_bytes out.old ++ info_of plan.now log) }
{
    push_shown(out, plan, servers, started)
}

fn push_shown(
    out: &mut String,
    plan: &Plan,
    servers: &[Server],
    started: BrickSet,
) -> Result<(), NoMemory>
    requires few { plan.now.shape.n ≤ 5 }
    requires rising { IsRising 0 started }
    ensures ok { OnOk result (string_bytes out.new ≡ string_bytes out.old ++ info_shown plan.now servers.now started) }
{
    push_reach(out, plan.shape.n, started)?;
    push_objects(out, plan, servers, started)
}
