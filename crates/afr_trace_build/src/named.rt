//! What a line names, and whether the plan and the lines before it have it.
ghost use Rattle.std.specs.Prelude.{◌≡◌, ◌<◌, ◌≤◌, reverse};
ghost use Rattle.std.specs.Option.{option_copied};
ghost use Rattle.afr_model.specs.Actors.{works_of};
ghost use Rattle.afr_trace_build.specs.Filling.{has_work, is_event_of, is_heal_end, present};
ghost use Rattle.afr_trace_build.specs.Requests.{asks_for, is_actor, is_answer, is_attrs_read, is_brick, is_read, listed_brick};

use crate::earlier::ended;
use afr_base::{ActorId, BrickId};
use afr_lines::{Event, Line, Request};
use afr_plan::{Command, Plan};
use afr_trace_read::{Answered, Healed};

pub(crate) fn is_actor(plan: &Plan, a: ActorId) -> bool
    ensures { result ≡ is_actor plan.now a.0 }
{
    let a = usize::from(a.0);
    (1 <= a && a <= plan.clients.len()) || (17 <= a && a - 16 <= plan.healers.len())
}

pub(crate) fn is_brick(plan: &Plan, b: BrickId) -> bool
    ensures { result ≡ is_brick plan.now b.0 }
{
    b.0 < plan.shape.n
}

pub(crate) fn is_event_of(plan: &Plan, event: Event) -> bool
    ensures { result ≡ is_event_of plan.now event }
{
    match event {
        Event::Stop(brick) => is_brick(plan, brick),
        Event::Start(brick) => is_brick(plan, brick),
        Event::Cut(actor, brick) => is_actor(plan, actor) && is_brick(plan, brick),
        Event::Join(actor, brick) => is_actor(plan, actor) && is_brick(plan, brick),
        Event::Kill(actor) => is_actor(plan, actor),
    }
}

pub(crate) fn is_answer(plan: &Plan, answered: Answered) -> bool
    ensures { result ≡ is_answer plan.now answered }
{
    match answered {
        Answered::Held(owner) => is_actor(plan, owner),
        _ => true,
    }
}

pub(crate) fn is_heal_end(plan: &Plan, healed: Healed) -> bool
    ensures { result ≡ is_heal_end plan.now healed }
{
    match healed {
        Healed::Busy(owner) => is_actor(plan, owner),
        Healed::Moved(brick) => is_brick(plan, brick),
        _ => true,
    }
}

// ---- works

fn rounds(plan: &Plan, a: ActorId) -> usize
    ensures { 16 < a.0 → result ≡ works_of plan.now a.0 }
{
    match plan
        .healers
        .as_slice()
        .get(usize::from(a.0.saturating_sub(17)))
    {
        Some(rounds) => rounds.len(),
        None => 0,
    }
}

fn commands(plan: &Plan, a: ActorId) -> usize
    ensures { a.0 ≤ 16 → result ≡ works_of plan.now a.0 }
{
    match plan
        .clients
        .as_slice()
        .get(usize::from(a.0.saturating_sub(1)))
    {
        Some(script) => script.len(),
        None => 0,
    }
}

fn works_of(plan: &Plan, a: ActorId) -> usize
    ensures { result ≡ works_of plan.now a.0 }
{
    if a.0 > 16 {
        rounds(plan, a)
    } else {
        commands(plan, a)
    }
}

/// Whether the actor is the plan's and has a command or a round left.
pub(crate) fn has_work(plan: &Plan, log: &[Line], a: ActorId) -> bool
    ensures { result ≡ has_work plan.now (reverse log.now) a }
{
    is_actor(plan, a) && ended(log, a) < works_of(plan, a)
}

/// The actor's present command. A healer has none.
pub(crate) fn present<'a>(plan: &'a Plan, a: ActorId, log: &[Line]) -> Option<&'a Command>
    ensures { option_copied result ≡ present plan.now a (reverse log.now) }
{
    match plan
        .clients
        .as_slice()
        .get(usize::from(a.0.saturating_sub(1)))
    {
        Some(script) => script.as_slice().get(ended(log, a)),
        None => None,
    }
}

// ---- requests of earlier lines

pub(crate) fn is_read(line: Option<&Line>) -> bool
    ensures { result ≡ asks_for is_read (option_copied line.entry) }
{
    match line {
        Some(
            Line::Ask {
                request: Request::ReadBytes { .. },
                ..
            },
        ) => true,
        _ => false,
    }
}

pub(crate) fn is_attrs_read(line: Option<&Line>) -> bool
    ensures { result ≡ asks_for is_attrs_read (option_copied line.entry) }
{
    match line {
        Some(
            Line::Ask {
                request: Request::ReadAttrs { .. },
                ..
            },
        ) => true,
        _ => false,
    }
}

/// The brick that a line listed.
pub(crate) fn listed_brick(line: Option<&Line>) -> Option<u8>
    ensures { result ≡ listed_brick (option_copied line.entry) }
{
    match line {
        Some(
            Line::Ask {
                brick,
                request: Request::List { .. },
                ..
            },
        ) => Some(brick.0),
        _ => None,
    }
}
