//! The objects that may need heal, and how many kinds of them are split.
ghost use Rattle.std.specs.Prelude.{◌≡◌, ◌++◌, ◌≤◌, IfOk, OnOk, string_bytes};
ghost use Rattle.afr_model.specs.ReportObjects.{splits_of};
ghost use Rattle.afr_base.specs.Rising.{IsRising};
ghost use Rattle.afr_report_info.specs.Shown.{counted_shown, lines_shown, object_text, objects_shown, shown, splits_shown};

use crate::looking::look;
use crate::marked::marked;
use crate::marks::push_all_marks;
use crate::verdicts::push_verdict;
use afr_base::{BrickSet, Gfid, Kind, NoMemory, What};
use afr_choice::Looked;
use afr_plan::Plan;
use afr_report_words::push_gfid;
use afr_server::Server;

/// Adds how many objects may need heal, each of them, and how many kinds are split.
pub fn push_objects(
    out: &mut String,
    plan: &Plan,
    servers: &[Server],
    among: BrickSet,
) -> Result<(), NoMemory>
    requires few { plan.now.shape.n ≤ 5 }
    requires rising { IsRising 0 among }
    ensures ok { OnOk result (string_bytes out.new ≡ string_bytes out.old ++ objects_shown plan.now servers.now among) }
{
    let index = marked(*out.allocator(), servers, among)?;
    let objects = index.list()?;
    push_counted(out, plan, servers, among, objects.as_slice())?;
    Ok(())
}

fn push_counted(
    out: &mut String,
    plan: &Plan,
    servers: &[Server],
    among: BrickSet,
    objects: &[(Gfid, What)],
) -> Result<(), NoMemory>
    requires few { plan.now.shape.n ≤ 5 }
    requires rising { IsRising 0 among }
    ensures ok { OnOk result (string_bytes out.new ≡ string_bytes out.old ++ counted_shown plan.now servers.now among objects.now) }
{
    let count = objects.len();
    write!(out, "objects {count}\n")?;
    let splits = push_each(out, plan, servers, among, objects)?;
    write!(out, "split-brain {splits}\n")?;
    Ok(())
}

/// Adds each object of the list, and gives how many kinds of them are split.
fn push_each(
    out: &mut String,
    plan: &Plan,
    servers: &[Server],
    among: BrickSet,
    objects: &[(Gfid, What)],
) -> Result<usize, NoMemory>
    requires few { plan.now.shape.n ≤ 5 }
    requires rising { IsRising 0 among }
    ensures ok { OnOk result (string_bytes out.new ≡ string_bytes out.old ++ lines_shown plan.now servers.now among objects.now) }
    ensures splits { IfOk result (λ count. count ≡ splits_shown plan.now servers.now among objects.now) }
{
    let mut splits = 0;
    for object in objects {
        let (gfid, _) = *object;
        splits += push_looked(out, plan, servers, among, gfid)?;
    }
    Ok(splits)
}

/// Looks at an object and adds it.
fn push_looked(
    out: &mut String,
    plan: &Plan,
    servers: &[Server],
    among: BrickSet,
    gfid: Gfid,
) -> Result<usize, NoMemory>
    requires few { plan.now.shape.n ≤ 5 }
    requires rising { IsRising 0 among }
    ensures ok { OnOk result (string_bytes out.new ≡ string_bytes out.old ++ object_text plan.now (shown servers.now among gfid) among gfid) }
    ensures splits { IfOk result (λ count. count ≡ splits_of plan.now (shown servers.now among gfid)) }
    ensures few { IfOk result (λ count. count ≤ 3) }
{
    push_object(out, plan, &look(servers, among, gfid), among, gfid)
}

/// Adds one object, and gives how many of its kinds are split.
fn push_object(
    out: &mut String,
    plan: &Plan,
    looked: &Looked,
    among: BrickSet,
    gfid: Gfid,
) -> Result<usize, NoMemory>
    requires few { plan.now.shape.n ≤ 5 }
    requires rising { IsRising 0 among }
    ensures ok { OnOk result (string_bytes out.new ≡ string_bytes out.old ++ object_text plan.now looked.now among gfid) }
    ensures splits { IfOk result (λ count. count ≡ splits_of plan.now looked.now) }
    ensures few { IfOk result (λ count. count ≤ 3) }
{
    out.push_str("object ")?;
    push_gfid(out, gfid)?;
    out.push_str("\n")?;
    let bytes = push_verdict(out, plan, looked, Kind::Bytes)?;
    let attrs = push_verdict(out, plan, looked, Kind::Attrs)?;
    let names = push_verdict(out, plan, looked, Kind::Names)?;
    push_all_marks(out, plan, looked, among)?;
    Ok(bytes + attrs + names)
}
