//! What a brick tells of a request that it carries out.
ghost use Rattle.std.specs.Prelude.{◌≡◌, ◌↔◌, ◌<◌, true, length, reverse};
ghost use Rattle.afr_lines.specs.Told.{told_by};
ghost use Rattle.afr_lines.specs.declared.answer.Answer.{Answer};
ghost use Rattle.afr_model.specs.Honest.{copy_answer, lock_answer};
ghost use Rattle.afr_model.specs.Tables.{holds};
ghost use Rattle.afr_object.specs.Object.{Object};
ghost use Rattle.afr_object.specs.Repairs.{repaired};
ghost use Rattle.afr_object.specs.Tables.{copy_at};
ghost use Rattle.afr_trace_build.specs.Shown.{all_sums_of, empty_view, view_shown};
ghost use Rattle.afr_trace_check.specs.Honest.{look_told, told_by_sums};
ghost use Rattle.afr_trace_tally.specs.Tally.{IsTally};

use afr_base::{ActorId, AllMarks, BrickId, Gfid, Kind, What};
use afr_lines::{Line, Request, Told, change_at};
use afr_object::{Repair, View, object_of};
use afr_plan::Plan;
use afr_trace_tally::Tally;

/// What a request is told that the brick carries out.
pub(crate) fn told(
    tally: &Tally,
    plan: &Plan,
    log: &[Line],
    a: ActorId,
    b: BrickId,
    request: &Request,
) -> Told
    requires tally { IsTally plan.now (reverse log.now) tally.now }
    requires brick { b.0 < 5 }
    requires few { length log.now < 2147483648 }
    ensures { result ≡ told_by_sums plan.now a request.now b.0 (reverse log.now) }
{
    match request {
        Request::Lock { domain, area } => lock_told(tally.conflict(plan, log, b, a, *domain, area)),
        Request::Unlock { .. } => Told::Done,
        Request::Look { gfid } => look_told(tally, plan, log, b, *gfid),
        Request::ReadBytes { gfid, .. } => if_there(tally, plan, log, b, *gfid, Told::Given),
        Request::ReadName { gfid, .. } => if_there(tally, plan, log, b, *gfid, Told::Given),
        Request::List { gfid } => if_there(tally, plan, log, b, *gfid, Told::Given),
        Request::ReadAttr { gfid, .. } => if_there(tally, plan, log, b, *gfid, Told::Given),
        Request::ReadAttrs { gfid } => if_there(tally, plan, log, b, *gfid, Told::Given),
        Request::Index => Told::Given,
        Request::Pre { gfid, .. } => if_there(tally, plan, log, b, *gfid, Told::Done),
        Request::Apply { attempt } => apply_told(tally, plan, log, a, b, *attempt),
        Request::Post { gfid, .. } => if_there(tally, plan, log, b, *gfid, Told::Done),
        Request::Mend { repair } => if_there(tally, plan, log, b, repaired(*repair), Told::Done),
        Request::Settle { gfid, .. } => if_there(tally, plan, log, b, *gfid, Told::Done),
    }
}

fn lock_told(way: Option<ActorId>) -> Told
    ensures { result ≡ told_by (lock_answer way) }
{
    match way {
        None => Told::Granted,
        Some(owner) => Told::Held(owner),
    }
}

/// What is told of a request that a copy answers so.
fn if_there(tally: &Tally, plan: &Plan, log: &[Line], b: BrickId, g: Gfid, told: Told) -> Told
    requires tally { IsTally plan.now (reverse log.now) tally.now }
    requires brick { b.0 < 5 }
    ensures { (f : Object → Answer) → ((o : Object) → told_by (f o) ≡ told) → result ≡ told_by (copy_answer f (copy_at g (holds plan.now (reverse log.now) b.0))) }
{
    if tally.has_object(plan, log, b, g) {
        told
    } else {
        Told::NoObject
    }
}

// ---- looks

/// The numbers of each kind, as sums.
fn all_marks(tally: &Tally, plan: &Plan, log: &[Line], b: BrickId, g: Gfid) -> AllMarks
    requires tally { IsTally plan.now (reverse log.now) tally.now }
    requires brick { b.0 < 5 }
    requires few { length log.now < 2147483648 }
    ensures { result ≡ all_sums_of plan.now (reverse log.now) b.0 g }
{
    AllMarks {
        bytes: tally.marks(plan, log, b, g, Kind::Bytes),
        attrs: tally.marks(plan, log, b, g, Kind::Attrs),
        names: tally.marks(plan, log, b, g, Kind::Names),
    }
}

/// What a look at an object that the brick has shows.
pub(crate) fn view_shown(tally: &Tally, plan: &Plan, log: &[Line], b: BrickId, g: Gfid) -> View
    requires tally { IsTally plan.now (reverse log.now) tally.now }
    requires brick { b.0 < 5 }
    requires few { length log.now < 2147483648 }
    ensures { result ≡ view_shown plan.now (reverse log.now) b.0 g }
{
    match tally.look(plan, log, b, g) {
        Some(view) => View {
            what: view.what,
            len: view.len,
            marks: all_marks(tally, plan, log, b, g),
        },
        None => empty_view(),
    }
}

/// The view of an empty file, whose numbers are all 0.
fn empty_view() -> View
    ensures { result ≡ empty_view }
{
    View {
        what: What::File,
        len: 0,
        marks: AllMarks::zero(),
    }
}

fn look_told(tally: &Tally, plan: &Plan, log: &[Line], b: BrickId, g: Gfid) -> Told
    requires tally { IsTally plan.now (reverse log.now) tally.now }
    requires brick { b.0 < 5 }
    requires few { length log.now < 2147483648 }
    ensures { result ≡ look_told plan.now (reverse log.now) b.0 g }
{
    if tally.has_object(plan, log, b, g) {
        Told::Seen(view_shown(tally, plan, log, b, g))
    } else {
        Told::NoObject
    }
}

// ---- attempts

fn apply_told(
    tally: &Tally,
    plan: &Plan,
    log: &[Line],
    a: ActorId,
    b: BrickId,
    attempt: u32,
) -> Told
    requires tally { IsTally plan.now (reverse log.now) tally.now }
    requires brick { b.0 < 5 }
    ensures { result ≡ told_by_sums plan.now a (Request.Apply attempt) b.0 (reverse log.now) }
{
    let _a = a;
    match change_at(log, attempt as usize) {
        Some(change) => if_there(tally, plan, log, b, object_of(change), Told::Done),
        None => Told::NoObject,
    }
}

fn repaired(repair: Repair) -> Gfid
    ensures { result ≡ repaired repair }
{
    match repair {
        Repair::CutTo { gfid, .. } => gfid,
        Repair::Copy { gfid, .. } => gfid,
        Repair::PutAttrs { gfid, .. } => gfid,
        Repair::PutNames { gfid, .. } => gfid,
    }
}

/// Whether two lines were told the same.
pub(crate) fn same_told(one: Told, other: Told) -> bool
    ensures { (result ≡ true) ↔ (one ≡ other) }
{
    match one {
        Told::Granted => matches!(other, Told::Granted),
        Told::Held(owner) => is_held(other, owner),
        Told::Seen(view) => is_seen(other, view),
        Told::Done => matches!(other, Told::Done),
        Told::Given => matches!(other, Told::Given),
        Told::NoObject => matches!(other, Told::NoObject),
        Told::NotConnected => matches!(other, Told::NotConnected),
        Told::Failed => matches!(other, Told::Failed),
    }
}

fn is_held(told: Told, owner: ActorId) -> bool
    ensures { (result ≡ true) ↔ (Told.Held owner ≡ told) }
{
    match told {
        Told::Held(other) => other == owner,
        _ => false,
    }
}

fn is_seen(told: Told, view: View) -> bool
    ensures { (result ≡ true) ↔ (Told.Seen view ≡ told) }
{
    match told {
        Told::Seen(other) => other == view,
        _ => false,
    }
}
