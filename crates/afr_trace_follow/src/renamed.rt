//! Whether a line of a rename keeps to its two paths.
ghost use Rattle.std.specs.Prelude.{◌≡◌, ◌↔◌, ◌<◌, Bool, Some, true, length, reverse, slice_get};
ghost use Rattle.afr_lines.specs.Work.{Work, work};
ghost use Rattle.afr_base.specs.declared.ids.ActorId.{ActorId};
ghost use Rattle.afr_base.specs.declared.ids.BrickId.{BrickId};
ghost use Rattle.afr_lines.specs.declared.answer.Told.{Told};
ghost use Rattle.afr_model.specs.Parts.{names_asked};
ghost use Rattle.afr_trace_follow.specs.Renaming.{IsDueName, KeepsToPaths, change_due, dir_due, link_to, name_due, name_given, unlink_from};
ghost use Rattle.afr_trace_tally.specs.Tally.{IsTally};

use crate::asked::{asked_at, asked_past, dir_next, is_dir, is_sum};
use crate::commands::{last_of, makes_last, removes_last};
use crate::facts::{both, same_number};
use afr_base::{ActorId, Gfid, NameId, What};
use afr_lines::{Line, Request};
use afr_object::{Change, Entry};
use afr_plan::Plan;
use afr_trace_tally::Tally;

// ---- the next name

fn name_at(path: &[NameId], at: usize) -> Option<NameId>
    ensures { result ≡ slice_get path.now at }
{
    path.get(at).copied()
}

/// The name that comes after so many.
fn name_due(from: &[NameId], to: &[NameId], names: usize) -> Option<NameId>
    ensures { result ≡ name_due from.now to.now names }
{
    if names < from.len() {
        return name_at(from, names);
    }
    let past = names - from.len();
    if past == to.len() {
        last_of(from)
    } else {
        name_at(to, past)
    }
}

/// Where the next name is asked.
fn dir_due(
    tally: &Tally,
    plan: &Plan,
    log: &[Line],
    a: ActorId,
    from: &[NameId],
    to: &[NameId],
    names: usize,
) -> Option<Gfid>
    requires tally { IsTally plan.now (reverse log.now) tally.now }
    requires few { length log.now < 2147483648 }
    requires names { names ≡ names_asked (work a.0 (reverse log.now)) }
    ensures { result ≡ dir_due plan.now from.now to.now (work a.0 (reverse log.now)) }
{
    if same_number(names, from.len()) {
        return Some(Gfid(1));
    }
    if is_sum(names, from.len(), to.len()) {
        return asked_at(tally, plan, log, a, from.len()).dir;
    }
    dir_next(tally, plan, log, a, names)
}

fn is_name(due: Option<NameId>, name: NameId) -> bool
    ensures { (result ≡ true) ↔ (due ≡ Some name) }
{
    match due {
        Some(next) => next == name,
        None => false,
    }
}

/// Whether a name is the one that comes next, asked where it is to be asked.
fn is_due_name(
    tally: &Tally,
    plan: &Plan,
    log: &[Line],
    a: ActorId,
    from: &[NameId],
    to: &[NameId],
    g: Gfid,
    name: NameId,
) -> bool
    requires tally { IsTally plan.now (reverse log.now) tally.now }
    requires few { length log.now < 2147483648 }
    ensures { (result ≡ true) ↔ IsDueName plan.now from.now to.now g name (work a.0 (reverse log.now)) }
{
    let names = asked_at(tally, plan, log, a, 0).names;
    let within = is_dir(dir_due(tally, plan, log, a, from, to, names), g);
    let named = is_name(name_due(from, to, names), name);
    both(named, within)
}

// ---- the next change

/// Whether a change gives a file the second path's last name, in this directory.
fn gives_name(file: Gfid, dir: Option<Gfid>, to: &[NameId], change: &Change) -> bool
    ensures { (result ≡ true) ↔ (name_given file dir to.now ≡ Some change.now) }
{
    match dir {
        Some(dir) => makes_last(change, dir, to, file, What::File),
        None => false,
    }
}

fn links_to(found: Option<Entry>, dir: Option<Gfid>, to: &[NameId], change: &Change) -> bool
    ensures { (result ≡ true) ↔ (link_to found dir to.now ≡ Some change.now) }
{
    match found {
        Some(found) => gives_name(found.gfid, dir, to, change),
        None => false,
    }
}

/// Whether a change removes the first path's last name from this directory.
fn unlinks_from(dir: Option<Gfid>, from: &[NameId], change: &Change) -> bool
    ensures { (result ≡ true) ↔ (unlink_from dir from.now ≡ Some change.now) }
{
    match dir {
        Some(dir) => removes_last(change, dir, from, What::File),
        None => false,
    }
}

/// Whether a change is the one that is begun next: what the first path has led to gets its new name, then the old one is taken away.
fn is_due_change(
    tally: &Tally,
    plan: &Plan,
    log: &[Line],
    a: ActorId,
    from: &[NameId],
    to: &[NameId],
    change: &Change,
) -> bool
    requires tally { IsTally plan.now (reverse log.now) tally.now }
    requires few { length log.now < 2147483648 }
    ensures { (result ≡ true) ↔ (change_due plan.now from.now to.now (work a.0 (reverse log.now)) ≡ Some change.now) }
{
    let old = asked_at(tally, plan, log, a, from.len());
    if old.begun == 0 {
        let new = asked_past(tally, plan, log, a, from.len(), to.len());
        links_to(old.entry, new.dir, to, change)
    } else if old.begun == 1 {
        unlinks_from(old.dir, from, change)
    } else {
        false
    }
}

// ---- a line

fn keeps_asked(
    tally: &Tally,
    plan: &Plan,
    log: &[Line],
    a: ActorId,
    from: &[NameId],
    to: &[NameId],
    request: &Request,
) -> bool
    requires tally { IsTally plan.now (reverse log.now) tally.now }
    requires few { length log.now < 2147483648 }
    ensures { (x : ActorId) (b : BrickId) (told : Told) (took : Bool) → (result ≡ true) ↔ KeepsToPaths plan.now from.now to.now (Line.Ask x b request.now told took) (work a.0 (reverse log.now)) }
{
    match request {
        Request::ReadName { gfid, name } => {
            is_due_name(tally, plan, log, a, from, to, *gfid, *name)
        }
        Request::Lock { .. } => true,
        Request::Unlock { .. } => true,
        Request::Look { .. } => true,
        Request::ReadBytes { .. } => true,
        Request::List { .. } => true,
        Request::ReadAttr { .. } => true,
        Request::ReadAttrs { .. } => true,
        Request::Index => true,
        Request::Pre { .. } => true,
        Request::Apply { .. } => true,
        Request::Post { .. } => true,
        Request::Mend { .. } => true,
        Request::Settle { .. } => true,
    }
}

/// Whether a line of the actor's present work keeps to a rename: it asks the next name, begins the next change, or does neither.
pub(crate) fn keeps_to_paths(
    tally: &Tally,
    plan: &Plan,
    log: &[Line],
    a: ActorId,
    from: &[NameId],
    to: &[NameId],
    line: &Line,
) -> bool
    requires tally { IsTally plan.now (reverse log.now) tally.now }
    requires few { length log.now < 2147483648 }
    ensures { (result ≡ true) ↔ KeepsToPaths plan.now from.now to.now line.now (work a.0 (reverse log.now)) }
{
    match line {
        Line::Ask { request, .. } => keeps_asked(tally, plan, log, a, from, to, request),
        Line::Begin { change, .. } => is_due_change(tally, plan, log, a, from, to, change),
        Line::HealBegin { .. } => false,
        Line::HealEnd { .. } => false,
        Line::End { .. } => true,
        Line::Event { .. } => true,
    }
}
