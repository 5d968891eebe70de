//! The objects that a line touches.
ghost use Rattle.std.specs.Prelude.{◌≡◌, ◌<◌, ◌++◌, ◌∷◌, [], Some, IfOk, OnOk, reverse};
ghost use Rattle.std.specs.Option.{option_copied};
ghost use Rattle.afr_object.specs.Repairs.{repaired};
ghost use Rattle.afr_trace_safe.specs.Touched.{all_read_objects, asked_objects, begun_more, begun_object, begun_objects, changed_objects, ended_objects, made_objects, named_objects, lacked, all_lacked, read_objects, touched};
ghost use Rattle.afr_trace_tally.specs.Tally.{AsksKnown, IsTally};

use afr_base::{ActorId, BrickId, Gfid, NameId, NoMemory};
use afr_lines::{Line, Reply, Request, change_at, is_end, is_of};
use afr_object::{Change, Entry, Repair, object_of};
use afr_plan::Plan;
use afr_trace_tally::Tally;
use std::alloc::Global;

fn one_object(alloc: Global, g: Gfid) -> Result<Vec<Gfid>, NoMemory>
    ensures { IfOk result (λ objects. objects.items ≡ g ∷ []) }
{
    let mut objects = Vec::new(alloc);
    objects.push(g)?;
    Ok(objects)
}

// ---- objects that a brick gets

fn push_new(
    objects: &mut Vec<Gfid>,
    tally: &Tally,
    plan: &Plan,
    log: &[Line],
    b: BrickId,
    g: Gfid,
) -> Result<(), NoMemory>
    requires tally { IsTally plan.now (reverse log.now) tally.now }
    requires brick { b.0 < 5 }
    ensures { OnOk result (objects.new.items ≡ objects.old.items ++ lacked plan.now (reverse log.now) b.0 g) }
{
    if tally.has_object(plan, log, b, g) {
        return Ok(());
    }
    objects.push(g)?;
    Ok(())
}

fn push_named(
    objects: &mut Vec<Gfid>,
    tally: &Tally,
    plan: &Plan,
    log: &[Line],
    b: BrickId,
    names: &[(NameId, Entry)],
) -> Result<(), NoMemory>
    requires tally { IsTally plan.now (reverse log.now) tally.now }
    requires brick { b.0 < 5 }
    ensures { OnOk result (objects.new.items ≡ objects.old.items ++ all_lacked plan.now (reverse log.now) b.0 names.now) }
{
    for x in names {
        push_new(objects, tally, plan, log, b, x.1.gfid)?;
    }
    Ok(())
}

fn push_read(
    objects: &mut Vec<Gfid>,
    alloc: Global,
    tally: &Tally,
    plan: &Plan,
    log: &[Line],
    b: BrickId,
    read: Option<u32>,
) -> Result<(), NoMemory>
    requires tally { IsTally plan.now (reverse log.now) tally.now }
    requires brick { b.0 < 5 }
    ensures { OnOk result (objects.new.items ≡ objects.old.items ++ read_objects plan.now (reverse log.now) b.0 read) }
{
    let Some(position) = read else {
        return Ok(());
    };
    let names = tally.names_shown(alloc, plan, log, position)?;
    push_named(objects, tally, plan, log, b, names.as_slice())?;
    Ok(())
}

fn push_all_read(
    objects: &mut Vec<Gfid>,
    alloc: Global,
    tally: &Tally,
    plan: &Plan,
    log: &[Line],
    b: BrickId,
    reads: &[Option<u32>],
) -> Result<(), NoMemory>
    requires tally { IsTally plan.now (reverse log.now) tally.now }
    requires brick { b.0 < 5 }
    ensures { OnOk result (objects.new.items ≡ objects.old.items ++ all_read_objects plan.now (reverse log.now) b.0 reads.now) }
{
    for read in reads {
        push_read(objects, alloc, tally, plan, log, b, *read)?;
    }
    Ok(())
}

fn push_made(
    objects: &mut Vec<Gfid>,
    tally: &Tally,
    plan: &Plan,
    log: &[Line],
    b: BrickId,
    change: &Change,
) -> Result<(), NoMemory>
    requires tally { IsTally plan.now (reverse log.now) tally.now }
    requires brick { b.0 < 5 }
    ensures { OnOk result (objects.new.items ≡ objects.old.items ++ made_objects plan.now (reverse log.now) b.0 change.now) }
{
    match change {
        Change::Make { gfid, .. } => push_new(objects, tally, plan, log, b, *gfid),
        Change::Write { .. } => Ok(()),
        Change::Cut { .. } => Ok(()),
        Change::SetAttr { .. } => Ok(()),
        Change::Remove { .. } => Ok(()),
    }
}

fn push_mended(
    objects: &mut Vec<Gfid>,
    alloc: Global,
    tally: &Tally,
    plan: &Plan,
    log: &[Line],
    b: BrickId,
    repair: &Repair,
) -> Result<(), NoMemory>
    requires tally { IsTally plan.now (reverse log.now) tally.now }
    requires brick { b.0 < 5 }
    ensures { OnOk result (objects.new.items ≡ objects.old.items ++ named_objects plan.now (reverse log.now) b.0 repair.now) }
{
    match repair {
        Repair::PutNames { reads, .. } => push_all_read(objects, alloc, tally, plan, log, b, reads),
        Repair::CutTo { .. } => Ok(()),
        Repair::Copy { .. } => Ok(()),
        Repair::PutAttrs { .. } => Ok(()),
    }
}

// ---- requests

fn change_objects(
    alloc: Global,
    tally: &Tally,
    plan: &Plan,
    log: &[Line],
    b: BrickId,
    change: &Change,
) -> Result<Vec<Gfid>, NoMemory>
    requires tally { IsTally plan.now (reverse log.now) tally.now }
    requires brick { b.0 < 5 }
    ensures { IfOk result (λ objects. objects.items ≡ changed_objects plan.now (reverse log.now) b.0 (Some change.now)) }
{
    let mut objects = one_object(alloc, object_of(change))?;
    push_made(&mut objects, tally, plan, log, b, change)?;
    Ok(objects)
}

fn changed_objects(
    alloc: Global,
    tally: &Tally,
    plan: &Plan,
    log: &[Line],
    b: BrickId,
    change: Option<&Change>,
) -> Result<Vec<Gfid>, NoMemory>
    requires tally { IsTally plan.now (reverse log.now) tally.now }
    requires brick { b.0 < 5 }
    ensures { IfOk result (λ objects. objects.items ≡ changed_objects plan.now (reverse log.now) b.0 (option_copied change.entry)) }
{
    match change {
        Some(change) => change_objects(alloc, tally, plan, log, b, change),
        None => Ok(Vec::new(alloc)),
    }
}

fn repaired(repair: &Repair) -> Gfid
    ensures { result ≡ repaired repair.now }
{
    match repair {
        Repair::CutTo { gfid, .. } => *gfid,
        Repair::Copy { gfid, .. } => *gfid,
        Repair::PutAttrs { gfid, .. } => *gfid,
        Repair::PutNames { gfid, .. } => *gfid,
    }
}

fn mended_objects(
    alloc: Global,
    tally: &Tally,
    plan: &Plan,
    log: &[Line],
    b: BrickId,
    repair: &Repair,
) -> Result<Vec<Gfid>, NoMemory>
    requires tally { IsTally plan.now (reverse log.now) tally.now }
    requires brick { b.0 < 5 }
    ensures { IfOk result (λ objects. objects.items ≡ repaired repair.now ∷ named_objects plan.now (reverse log.now) b.0 repair.now) }
{
    let mut objects = one_object(alloc, repaired(repair))?;
    push_mended(&mut objects, alloc, tally, plan, log, b, repair)?;
    Ok(objects)
}

fn applied_objects(
    alloc: Global,
    tally: &Tally,
    plan: &Plan,
    log: &[Line],
    b: BrickId,
    attempt: u32,
) -> Result<Vec<Gfid>, NoMemory>
    requires tally { IsTally plan.now (reverse log.now) tally.now }
    requires brick { b.0 < 5 }
    ensures { IfOk result (λ objects. objects.items ≡ asked_objects plan.now (reverse log.now) b.0 (Request.Apply attempt)) }
{
    let change = change_at(log, attempt as usize);
    changed_objects(alloc, tally, plan, log, b, change)
}

fn asked_objects(
    alloc: Global,
    tally: &Tally,
    plan: &Plan,
    log: &[Line],
    b: BrickId,
    request: &Request,
) -> Result<Vec<Gfid>, NoMemory>
    requires tally { IsTally plan.now (reverse log.now) tally.now }
    requires brick { b.0 < 5 }
    ensures { IfOk result (λ objects. objects.items ≡ asked_objects plan.now (reverse log.now) b.0 request.now) }
{
    match request {
        Request::Apply { attempt } => applied_objects(alloc, tally, plan, log, b, *attempt),
        Request::Mend { repair } => mended_objects(alloc, tally, plan, log, b, repair),
        Request::Settle { gfid, .. } => one_object(alloc, *gfid),
        _ => Ok(Vec::new(alloc)),
    }
}

// ---- ends

fn push_begun(objects: &mut Vec<Gfid>, line: &Line) -> Result<(), NoMemory>
    ensures { OnOk result (objects.new.items ≡ objects.old.items ++ begun_object line.now) }
{
    match line {
        Line::Begin { change, .. } => {
            objects.push(object_of(change))?;
            Ok(())
        }
        Line::Ask { .. } => Ok(()),
        Line::HealBegin { .. } => Ok(()),
        Line::End { .. } => Ok(()),
        Line::HealEnd { .. } => Ok(()),
        Line::Event { .. } => Ok(()),
    }
}

/// The objects of an actor's attempts, one line more.
fn add_begun(objects: &mut Vec<Gfid>, a: ActorId, line: &Line) -> Result<(), NoMemory>
    ensures { OnOk result (objects.new.items ≡ begun_more a.0 line.now objects.old.items) }
{
    if !is_of(a, line) {
        return Ok(());
    }
    if is_end(line) {
        objects.clear();
        return Ok(());
    }
    push_begun(objects, line)?;
    Ok(())
}

/// The objects of the attempts in an actor's present work.
fn begun_objects(alloc: Global, log: &[Line], a: ActorId) -> Result<Vec<Gfid>, NoMemory>
    ensures { IfOk result (λ objects. objects.items ≡ begun_objects a.0 (reverse log.now)) }
{
    let mut objects = Vec::new(alloc);
    for position in 0..log.len() {
        add_begun(&mut objects, a, &log[position])?;
    }
    Ok(objects)
}

fn ended_objects(
    alloc: Global,
    log: &[Line],
    a: ActorId,
    reply: &Reply,
) -> Result<Vec<Gfid>, NoMemory>
    ensures { IfOk result (λ objects. objects.items ≡ ended_objects a.0 (reverse log.now) reply.now) }
{
    match reply {
        Reply::Ok(_) => begun_objects(alloc, log, a),
        _ => Ok(Vec::new(alloc)),
    }
}

/// The objects of which a line may leave a copy that isn't current, where each copy was before it. It walks over the log at most once,
/// and takes one step for each name that a repair brings.
pub fn touched(
    alloc: Global,
    tally: &Tally,
    plan: &Plan,
    log: &[Line],
    line: &Line,
) -> Result<Vec<Gfid>, NoMemory>
    requires tally { IsTally plan.now (reverse log.now) tally.now }
    requires known { AsksKnown line.now }
    ensures { IfOk result (λ objects. objects.items ≡ touched plan.now line.now (reverse log.now)) }
{
    match line {
        Line::Ask { brick, request, .. } => asked_objects(alloc, tally, plan, log, *brick, request),
        Line::End { actor, reply } => ended_objects(alloc, log, *actor, reply),
        Line::Begin { .. } => Ok(Vec::new(alloc)),
        Line::HealBegin { .. } => Ok(Vec::new(alloc)),
        Line::HealEnd { .. } => Ok(Vec::new(alloc)),
        Line::Event { .. } => Ok(Vec::new(alloc)),
    }
}
