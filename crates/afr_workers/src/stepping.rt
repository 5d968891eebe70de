//! A turn of any actor, after the events that are due.
ghost use Rattle.std.specs.Prelude.{◌≡◌, None};
ghost use Rattle.afr_model.specs.Actors.{IsActor};
ghost use Rattle.afr_rule.specs.Choosing.{IsRule};
ghost use Rattle.afr_volume.specs.Turning.{due_of};
ghost use Rattle.afr_workers.specs.Workshop.{IsKept, IsShop};

use crate::crew::{SECOND, THIRD};
use crate::putting::crawls;
use crate::taking::works;
use crate::workshop::{Workshop, events, is_full, turns};
use afr_base::{ActorId, FIRST_HEALER, MOST_CLIENTS};
use afr_crowd::Step;
use afr_rule::{Candidate, Rules};
use afr_tasks::{MOST_TASKS, Worker};

/// A turn of an actor, before which no event is due.
fn acts<F: Fn(&[Candidate]) -> usize, G: Fn(&[Candidate]) -> usize>(
    x: &mut Workshop,
    a: ActorId,
    rules: &Rules<F, G>,
) -> Step
    requires rule { IsRule F.Fn rules.now.heal }
    requires read_rule { IsRule G.Fn rules.now.read }
    requires actor { IsActor x.old.volume.plan a.0 }
    requires none { due_of x.old.volume ≡ None }
    requires shop { IsShop x.old }
    ensures { IsKept x.old x.new }
{
    if a.0 <= MOST_CLIENTS {
        return turns(x, a, rules);
    }
    if a.0 == SECOND {
        return works(x, a, Worker::Second, rules);
    }
    if a.0 == THIRD {
        return works(x, a, Worker::Third, rules);
    }
    crawls(x, rules)
}

/// Whether an actor was told that another holds its lock, and since then came no other line than such ones, and the log has
/// room for one.
fn is_held(x: &Workshop, a: ActorId) -> bool {
    x.held.has(a) && x.volume.len() < x.volume.plan().turns
}

/// Whether an actor takes no further turn: memory was wanting, or it is held.
fn is_stopped(x: &Workshop, a: ActorId) -> bool {
    x.no_memory || is_held(x, a)
}

/// The thread ends.
fn ends() -> Step {
    Step {
        goes: false,
        wakes: true,
    }
}

/// Whether a thread that sleeps may go on, after a turn before which the log was so long and so many tasks waited, and after
/// the events of which it was so long.
fn may_wake(x: &Workshop, before: u32, events: u32, queued: usize) -> bool {
    events > before || x.tasks.queued() != queued || is_full(&x.volume)
}

/// What a turn has come to, also where it wakes for another cause.
fn with_wakes(step: Step, wakes: bool) -> Step {
    Step {
        goes: step.goes,
        wakes: step.wakes || wakes,
    }
}

/// The events that are due, and then a turn of an actor. Where memory was wanting, every thread ends; and a thread whose actor
/// is held, which comes here only where some actor has no thread.
pub(crate) fn steps<F: Fn(&[Candidate]) -> usize, G: Fn(&[Candidate]) -> usize>(
    x: &mut Workshop,
    a: ActorId,
    rules: &Rules<F, G>,
) -> Step
    requires rule { IsRule F.Fn rules.now.heal }
    requires read_rule { IsRule G.Fn rules.now.read }
    requires actor { IsActor x.old.volume.plan a.0 }
    requires shop { IsShop x.old }
    ensures { IsKept x.old x.new }
{
    if is_stopped(x, a) {
        return ends();
    }
    let before = x.volume.len();
    let queued = x.tasks.queued();
    if !events(x) {
        return ends();
    }
    let after_events = x.volume.len();
    let step = acts(x, a, rules);
    with_wakes(step, may_wake(x, before, after_events, queued))
}

/// Whether a worker has found no task and none was put since, or the crawler has found the queue full and nothing was taken
/// since.
fn is_resting(x: &Workshop, a: ActorId) -> bool {
    let queued = x.tasks.queued();
    match a.0 {
        FIRST_HEALER => x.rests.crawler && queued >= MOST_TASKS,
        SECOND => x.rests.second && queued == 0,
        THIRD => x.rests.third && queued == 0,
        _ => false,
    }
}

/// Whether an actor can do nothing before another has taken a turn. Where memory was wanting or an actor has no thread, nobody
/// sleeps.
pub(crate) fn sleeps(x: &Workshop, a: ActorId) -> bool {
    if x.no_memory || x.is_short {
        return false;
    }
    is_held(x, a) || is_resting(x, a)
}
