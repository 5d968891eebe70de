//! Whether a line of a command with one path keeps to it.
ghost use Rattle.std.specs.Prelude.{◌≡◌, ◌↔◌, ◌<◌, ◌^◌, Bool, Some, false, true, length, reverse};
ghost use Rattle.afr_base.specs.declared.ids.ActorId.{ActorId};
ghost use Rattle.afr_base.specs.declared.ids.BrickId.{BrickId};
ghost use Rattle.afr_lines.specs.declared.answer.Told.{Told};
ghost use Rattle.afr_lines.specs.Log.{change_of};
ghost use Rattle.afr_lines.specs.Work.{Work, work};
ghost use Rattle.afr_model.specs.Commands.{steps_of};
ghost use Rattle.afr_model.specs.Keeping.{KeepsTo};
ghost use Rattle.afr_model.specs.Standing.{place_by};
ghost use Rattle.afr_object.specs.declared.change.Change.{Change};
ghost use Rattle.afr_plan.specs.declared.plan.Plan.{Plan};
ghost use Rattle.afr_trace_follow.specs.Keeping.{IsNamedAt, KeepsBy};
ghost use Rattle.afr_trace_follow.specs.Seen.{path_seen};
ghost use Rattle.afr_trace_follow.specs.Stands.{IsAt};
ghost use Rattle.afr_trace_tally.specs.Tally.{IsTally};

use crate::commands::{is_named_at, is_next_of, is_on_name, path_of, steps_of};
use crate::facts::{both, is_not};
use crate::path::Path;
use crate::stand::{Stand, stand_of};
use afr_base::{ActorId, NameId};
use afr_lines::{Line, Request, change_of};
use afr_plan::{Command, Plan};
use afr_trace_tally::Tally;

/// Whether a line reads the next of these names, begins what it may begin, or does neither.
pub(crate) fn keeps_by(line: &Line, path: Path, names: &[NameId], begins: bool) -> bool
    ensures { (result ≡ true) ↔ KeepsBy (path_seen path) names.now begins line.now }
{
    match line {
        Line::Ask { request, .. } => asks_next(request, path, names),
        Line::Begin { .. } => begins,
        Line::HealBegin { .. } => false,
        Line::HealEnd { .. } => false,
        Line::End { .. } => true,
        Line::Event { .. } => true,
    }
}

/// Whether a request, where it reads a name, reads the next of these.
fn asks_next(request: &Request, path: Path, names: &[NameId]) -> bool
    ensures { (a : ActorId) (b : BrickId) (told : Told) (took begins : Bool) → (result ≡ true) ↔ KeepsBy (path_seen path) names.now begins (Line.Ask a b request.now told took) }
{
    match request {
        Request::ReadName { gfid, name } => is_next_of(path, names, *gfid, *name),
        Request::Lock { .. } => true,
        Request::Unlock { .. } => true,
        Request::Look { .. } => true,
        Request::ReadBytes { .. } => true,
        Request::List { .. } => true,
        Request::ReadAttr { .. } => true,
        Request::ReadAttrs { .. } => true,
        Request::Index => true,
        Request::Pre { .. } => true,
        Request::Apply { .. } => true,
        Request::Post { .. } => true,
        Request::Mend { .. } => true,
        Request::Settle { .. } => true,
    }
}

/// Where the path to the object of the command has led: the whole path, or all but its last name.
fn place_of(command: &Command, stand: Stand) -> Path
    ensures { (p : Plan) (w : Work) → IsAt p (steps_of command.now) w stand → path_seen result ≡ place_by p command.now w }
{
    if is_on_name(command) {
        stand.place
    } else {
        stand.path
    }
}

/// Whether a line that begins an attempt begins the first one of its work, and the one that the words name.
fn begins_named(line: &Line, begun: bool, place: Path, command: &Command, position: usize) -> bool
    requires { position < 2 ^ 62 }
    ensures { (change : Change) → change_of line.now ≡ Some change → ((result ≡ true) ↔ ((begun ≡ false) × IsNamedAt (path_seen place) command.now position change)) }
{
    match change_of(line) {
        Some(change) => {
            let first = is_not(begun);
            both(first, is_named_at(place, command, position, change))
        }
        None => false,
    }
}

/// Whether a line of the actor's present work keeps to a command.
pub(crate) fn keeps_to(
    tally: &Tally,
    plan: &Plan,
    log: &[Line],
    a: ActorId,
    command: &Command,
    line: &Line,
) -> bool
    requires tally { IsTally plan.now (reverse log.now) tally.now }
    requires few { length log.now < 2147483648 }
    ensures { (result ≡ true) ↔ KeepsTo plan.now command.now line.now (length log.now) (work a.0 (reverse log.now)) }
{
    let upto = log.len();
    let stand = stand_of(tally, plan, log, a, upto, steps_of(command));
    let place = place_of(command, stand);
    let begins = begins_named(line, stand.begun, place, command, upto);
    keeps_by(line, stand.path, path_of(command).as_slice(), begins)
}
