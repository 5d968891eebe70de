//! How many objects may need heal and how many of their kinds are split, without the text of them.
ghost use Rattle.std.specs.Prelude.{◌≡◌, ◌≤◌, IfOk, List, length};
ghost use Rattle.afr_lines.specs.declared.line.Line.{Line};
ghost use Rattle.afr_model.specs.ReportObjects.{marked_on, splits_in, splits_of};
ghost use Rattle.afr_base.specs.Rising.{IsRising};
ghost use Rattle.afr_report_info.specs.Shown.{HoldTables, marked_in, shown, splits_shown};

use crate::looking::look;
use crate::marked::marked;
use crate::verdicts::split_of;
use afr_base::{BrickSet, Gfid, Kind, NoMemory, What};
use afr_choice::Looked;
use afr_plan::Plan;
use afr_server::Server;
use std::alloc::Global;

/// What the two counts of an info say.
#[derive(Clone, Copy)]
pub struct ObjectCounts {
    /// The objects that may need heal on one of the bricks.
    pub objects: usize,
    /// How many of their kinds are split.
    pub splits: usize,
}

/// The counts of objects on the started bricks, where the servers' bricks hold the tables that a log has made. It takes
/// O(log n) for each object that the index of a started brick lists, on a brick of n objects.
pub fn count_objects(
    alloc: Global,
    plan: &Plan,
    servers: &[Server],
    started: BrickSet,
) -> Result<ObjectCounts, NoMemory>
    requires few { plan.now.shape.n ≤ 5 }
    requires rising { IsRising 0 started }
    ensures objects { (log : List Line) → HoldTables plan.now log started servers.now → IfOk result (λ counts. counts.objects ≡ length (marked_on plan.now log started)) }
    ensures splits { (log : List Line) → HoldTables plan.now log started servers.now
        → IfOk result (λ counts. counts.splits ≡ splits_in plan.now log started (marked_on plan.now log started)) }
{
    count_shown(alloc, plan, servers, started)
}

fn count_shown(
    alloc: Global,
    plan: &Plan,
    servers: &[Server],
    among: BrickSet,
) -> Result<ObjectCounts, NoMemory>
    requires few { plan.now.shape.n ≤ 5 }
    requires rising { IsRising 0 among }
    ensures objects { IfOk result (λ counts. counts.objects ≡ length (marked_in servers.now among)) }
    ensures splits { IfOk result (λ counts. counts.splits ≡ splits_shown plan.now servers.now among (marked_in servers.now among)) }
{
    let index = marked(alloc, servers, among)?;
    let objects = index.list()?;
    Ok(ObjectCounts {
        objects: objects.len(),
        splits: count_splits(plan, servers, among, objects.as_slice()),
    })
}

/// How many kinds of the objects are split.
fn count_splits(plan: &Plan, servers: &[Server], among: BrickSet, objects: &[(Gfid, What)]) -> usize
    requires few { plan.now.shape.n ≤ 5 }
    ensures { result ≡ splits_shown plan.now servers.now among objects.now }
{
    let mut splits = 0;
    for object in objects {
        let (gfid, _) = *object;
        splits += splits_at(plan, &look(servers, among, gfid));
    }
    splits
}

/// How many kinds of an object are split, by what the bricks show of it.
fn splits_at(plan: &Plan, looked: &Looked) -> usize
    requires few { plan.now.shape.n ≤ 5 }
    ensures splits { result ≡ splits_of plan.now looked.now }
    ensures few { result ≤ 3 }
{
    let bytes = split_of(plan, looked, Kind::Bytes);
    let attrs = split_of(plan, looked, Kind::Attrs);
    let names = split_of(plan, looked, Kind::Names);
    bytes + attrs + names
}
