//! Whether a line is what the plan has for its moment.
ghost use Rattle.std.specs.Prelude.{◌≡◌, ◌↔◌, ◌<◌, ◌≤◌, Some, false, true, length, reverse, slice_get};
ghost use Rattle.std.specs.Option.{option_copied};
ghost use Rattle.afr_lines.specs.Work.{events_made, is_killed, work};
ghost use Rattle.afr_model.specs.Actors.{rounds_of, script_of};
ghost use Rattle.afr_model.specs.Following.{IsNextEvent, NoneDue};
ghost use Rattle.afr_trace_follow.specs.Commands.{new_path};
ghost use Rattle.afr_trace_follow.specs.Following.{GoesSome, HasFewActors, KeepsToSome, is_actor};
ghost use Rattle.afr_trace_follow.specs.Lists.{AreLists};
ghost use Rattle.afr_trace_follow.specs.Planned.{CarriesOut, GoesWith, HasMoment, HasTurn, IsOfTask, IsPlanned, is_heal_line};
ghost use Rattle.afr_trace_tally.specs.Tally.{IsTally};

use crate::asked::asks_there;
use crate::commands::path_of;
use crate::facts::{both, same_brick};
use crate::keeping::keeps_to;
use crate::lists::Lists;
use crate::renamed::keeps_to_paths;
use crate::rounds::keeps_to_list;
use afr_base::{ActorId, BrickId};
use afr_lines::{Event, Line};
use afr_plan::{Command, NamePath, Plan, PlannedEvent};
use afr_trace_tally::Tally;

// ---- events

fn is_stop(event: Event, b: BrickId) -> bool
    ensures { (result ≡ true) ↔ (Event.Stop b ≡ event) }
{
    match event {
        Event::Stop(brick) => brick == b,
        _ => false,
    }
}

fn is_start(event: Event, b: BrickId) -> bool
    ensures { (result ≡ true) ↔ (Event.Start b ≡ event) }
{
    match event {
        Event::Start(brick) => brick == b,
        _ => false,
    }
}

fn same_actor(one: ActorId, other: ActorId) -> bool
    ensures { (result ≡ true) ↔ (one ≡ other) }
{
    one == other
}

fn is_pair(actor: ActorId, brick: BrickId, a: ActorId, b: BrickId) -> bool
    ensures { (result ≡ true) ↔ ((actor ≡ a) × (brick ≡ b)) }
{
    let one = same_actor(actor, a);
    both(one, same_brick(brick, b))
}

fn is_cut(event: Event, a: ActorId, b: BrickId) -> bool
    ensures { (result ≡ true) ↔ (Event.Cut a b ≡ event) }
{
    match event {
        Event::Cut(actor, brick) => is_pair(actor, brick, a, b),
        _ => false,
    }
}

fn is_join(event: Event, a: ActorId, b: BrickId) -> bool
    ensures { (result ≡ true) ↔ (Event.Join a b ≡ event) }
{
    match event {
        Event::Join(actor, brick) => is_pair(actor, brick, a, b),
        _ => false,
    }
}

fn is_kill(event: Event, a: ActorId) -> bool
    ensures { (result ≡ true) ↔ (Event.Kill a ≡ event) }
{
    match event {
        Event::Kill(actor) => actor == a,
        _ => false,
    }
}

fn same_event(one: Event, other: Event) -> bool
    ensures { (result ≡ true) ↔ (one ≡ other) }
{
    match one {
        Event::Stop(b) => is_stop(other, b),
        Event::Start(b) => is_start(other, b),
        Event::Cut(a, b) => is_cut(other, a, b),
        Event::Join(a, b) => is_join(other, a, b),
        Event::Kill(a) => is_kill(other, a),
    }
}

/// The plan's next event.
fn planned<'a>(tally: &Tally, plan: &'a Plan, log: &[Line]) -> Option<&'a PlannedEvent>
    requires tally { IsTally plan.now (reverse log.now) tally.now }
    ensures { option_copied result ≡ slice_get plan.now.events (events_made (reverse log.now)) }
{
    let made = tally.events(plan, log);
    plan.events.as_slice().get(made as usize)
}

fn is_within(at: u32, len: usize) -> bool
    ensures { (result ≡ true) ↔ (at ≤ len) }
{
    at as usize <= len
}

/// Whether a planned event is this one, and its moment has come.
fn has_come(next: &PlannedEvent, event: Event, len: usize) -> bool
    ensures { (result ≡ true) ↔ ((next.now.event ≡ event) × (next.now.at ≤ len)) }
{
    let same = same_event(next.event, event);
    both(same, is_within(next.at, len))
}

fn is_later(next: &PlannedEvent, len: usize) -> bool
    ensures { (result ≡ true) ↔ (len < next.now.at) }
{
    len < next.at as usize
}

/// Whether an event is the plan's next one, and its moment has come.
fn is_next_event(tally: &Tally, plan: &Plan, log: &[Line], event: Event) -> bool
    requires tally { IsTally plan.now (reverse log.now) tally.now }
    ensures { (result ≡ true) ↔ IsNextEvent plan.now event (reverse log.now) }
{
    match planned(tally, plan, log) {
        Some(next) => has_come(next, event, log.len()),
        None => false,
    }
}

/// Whether no event is due.
fn none_due(tally: &Tally, plan: &Plan, log: &[Line]) -> bool
    requires tally { IsTally plan.now (reverse log.now) tally.now }
    ensures { (result ≡ true) ↔ NoneDue plan.now (reverse log.now) }
{
    match planned(tally, plan, log) {
        Some(next) => is_later(next, log.len()),
        None => true,
    }
}

// ---- tasks

fn is_actor(plan: &Plan, a: ActorId) -> bool
    ensures { result ≡ is_actor plan.now a.0 }
{
    let a = usize::from(a.0);
    (1 <= a && a <= plan.clients.len()) || (17 <= a && a - 16 <= plan.healers.len())
}

/// The command of an actor that comes after so many. A healer has none.
fn command_of(plan: &Plan, a: ActorId, ended: u32) -> Option<&Command>
    ensures { option_copied result ≡ slice_get (script_of plan.now a.0) ended }
{
    match plan
        .clients
        .as_slice()
        .get(usize::from(a.0.saturating_sub(1)))
    {
        Some(script) => script.as_slice().get(ended as usize),
        None => None,
    }
}

/// The brick of the round of a healer that comes after so many.
fn round_of(plan: &Plan, a: ActorId, ended: u32) -> Option<BrickId>
    ensures { result ≡ slice_get (rounds_of plan.now a.0) ended }
{
    match plan
        .healers
        .as_slice()
        .get(usize::from(a.0.saturating_sub(17)))
    {
        Some(rounds) => rounds.as_slice().get(ended as usize).copied(),
        None => None,
    }
}

/// The second path of a rename.
fn new_path(command: &Command) -> Option<&NamePath>
    ensures { option_copied result ≡ new_path command.now }
{
    match command {
        Command::Rename { to, .. } => Some(to),
        _ => None,
    }
}

fn carries_out(
    tally: &Tally,
    plan: &Plan,
    log: &[Line],
    a: ActorId,
    command: &Command,
    line: &Line,
) -> bool
    requires tally { IsTally plan.now (reverse log.now) tally.now }
    requires few { length log.now < 2147483648 }
    ensures { (result ≡ true) ↔ CarriesOut plan.now command.now line.now (length log.now) (work a.0 (reverse log.now)) }
{
    match new_path(command) {
        Some(to) => {
            let from = path_of(command).as_slice();
            keeps_to_paths(tally, plan, log, a, from, to.as_slice(), line)
        }
        None => {
            let keeps = keeps_to(tally, plan, log, a, command, line);
            both(keeps, asks_there(tally, plan, log, a, line))
        }
    }
}

/// Whether a line begins or ends a heal.
fn is_heal_line(line: &Line) -> bool
    ensures { result ≡ is_heal_line line.now }
{
    match line {
        Line::HealBegin { .. } => true,
        Line::HealEnd { .. } => true,
        _ => false,
    }
}

/// Whether a line carries out a command, or says nothing of it.
fn goes_with(
    tally: &Tally,
    plan: &Plan,
    log: &[Line],
    a: ActorId,
    command: &Command,
    line: &Line,
) -> bool
    requires tally { IsTally plan.now (reverse log.now) tally.now }
    requires few { length log.now < 2147483648 }
    ensures { (result ≡ true) ↔ GoesWith plan.now command.now line.now (length log.now) (work a.0 (reverse log.now)) }
{
    if is_heal_line(line) {
        true
    } else {
        carries_out(tally, plan, log, a, command, line)
    }
}

fn keeps_to_some(
    tally: &Tally,
    plan: &Plan,
    log: &[Line],
    a: ActorId,
    command: Option<&Command>,
    line: &Line,
) -> bool
    requires tally { IsTally plan.now (reverse log.now) tally.now }
    requires few { length log.now < 2147483648 }
    ensures { (result ≡ true) ↔ KeepsToSome plan.now (option_copied command.entry) line.now (length log.now) (work a.0 (reverse log.now)) }
{
    match command {
        Some(command) => goes_with(tally, plan, log, a, command, line),
        None => false,
    }
}

fn goes_some(
    plan: &Plan,
    log: &[Line],
    lists: &Lists,
    a: ActorId,
    b: Option<BrickId>,
    line: &Line,
) -> bool
    requires lists { AreLists plan.now (reverse log.now) lists.now }
    requires few { length log.now < 2147483648 }
    requires healer { 17 ≤ a.0 }
    requires known { a.0 < 20 }
    ensures { (result ≡ true) ↔ GoesSome plan.now b line.now (work a.0 (reverse log.now)) }
{
    match b {
        Some(b) => keeps_to_list(log, a, b, lists.list(plan, log, a), line),
        None => false,
    }
}

/// Whether a line is of its actor's present command or round.
fn is_of_task(
    tally: &Tally,
    plan: &Plan,
    log: &[Line],
    lists: &Lists,
    a: ActorId,
    line: &Line,
) -> bool
    requires tally { IsTally plan.now (reverse log.now) tally.now }
    requires lists { AreLists plan.now (reverse log.now) lists.now }
    requires actors { HasFewActors plan.now }
    requires few { length log.now < 2147483648 }
    requires known { a.0 < 20 }
    ensures { (result ≡ true) ↔ IsOfTask plan.now a.0 line.now (reverse log.now) }
{
    let ended = tally.ended(plan, log, a);
    if a.0 < 17 {
        let command = command_of(plan, a, ended);
        keeps_to_some(tally, plan, log, a, command, line)
    } else {
        let round = round_of(plan, a, ended);
        goes_some(plan, log, lists, a, round, line)
    }
}

fn is_alive(tally: &Tally, plan: &Plan, log: &[Line], a: ActorId) -> bool
    requires tally { IsTally plan.now (reverse log.now) tally.now }
    requires known { a.0 < 20 }
    ensures { (result ≡ true) ↔ (is_killed a.0 (reverse log.now) ≡ false) }
{
    !tally.is_killed(plan, log, a)
}

/// Whether an actor lives, and the line is of its present task.
fn has_turn(
    tally: &Tally,
    plan: &Plan,
    log: &[Line],
    lists: &Lists,
    a: ActorId,
    line: &Line,
) -> bool
    requires tally { IsTally plan.now (reverse log.now) tally.now }
    requires lists { AreLists plan.now (reverse log.now) lists.now }
    requires actors { HasFewActors plan.now }
    requires few { length log.now < 2147483648 }
    ensures { (result ≡ true) ↔ HasTurn plan.now a.0 line.now (reverse log.now) }
{
    if !is_actor(plan, a) {
        return false;
    }
    if !is_alive(tally, plan, log, a) {
        return false;
    }
    is_of_task(tally, plan, log, lists, a, line)
}

/// Whether a line of an actor is its turn, and no event is due.
fn comes_in_turn(
    tally: &Tally,
    plan: &Plan,
    log: &[Line],
    lists: &Lists,
    a: ActorId,
    line: &Line,
) -> bool
    requires tally { IsTally plan.now (reverse log.now) tally.now }
    requires lists { AreLists plan.now (reverse log.now) lists.now }
    requires actors { HasFewActors plan.now }
    requires few { length log.now < 2147483648 }
    ensures { (result ≡ true) ↔ (HasTurn plan.now a.0 line.now (reverse log.now) × NoneDue plan.now (reverse log.now)) }
{
    let none = none_due(tally, plan, log);
    let turn = has_turn(tally, plan, log, lists, a, line);
    both(turn, none)
}

/// Whether a line is what the plan has for its moment.
fn has_moment(tally: &Tally, plan: &Plan, log: &[Line], lists: &Lists, line: &Line) -> bool
    requires tally { IsTally plan.now (reverse log.now) tally.now }
    requires lists { AreLists plan.now (reverse log.now) lists.now }
    requires actors { HasFewActors plan.now }
    requires few { length log.now < 2147483648 }
    ensures { (result ≡ true) ↔ HasMoment plan.now line.now (reverse log.now) }
{
    match line {
        Line::Ask { actor, .. } => comes_in_turn(tally, plan, log, lists, *actor, line),
        Line::Begin { actor, .. } => comes_in_turn(tally, plan, log, lists, *actor, line),
        Line::HealBegin { actor, .. } => comes_in_turn(tally, plan, log, lists, *actor, line),
        Line::End { actor, .. } => comes_in_turn(tally, plan, log, lists, *actor, line),
        Line::HealEnd { actor, .. } => comes_in_turn(tally, plan, log, lists, *actor, line),
        Line::Event { event } => is_next_event(tally, plan, log, *event),
    }
}

/// Whether a line comes while the log has room, and is what the plan has for its moment: the next event, or a line of an actor that
/// lives, of its present command or round, while no event is due. It takes as many steps as lines have come since the actor's present
/// work began.
pub fn is_following(tally: &Tally, plan: &Plan, log: &[Line], lists: &Lists, line: &Line) -> bool
    requires tally { IsTally plan.now (reverse log.now) tally.now }
    requires lists { AreLists plan.now (reverse log.now) lists.now }
    requires actors { HasFewActors plan.now }
    requires few { length log.now < 2147483648 }
    ensures { (result ≡ true) ↔ IsPlanned plan.now line.now (reverse log.now) }
{
    if log.len() >= plan.turns as usize {
        return false;
    }
    has_moment(tally, plan, log, lists, line)
}
