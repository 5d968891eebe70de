//! The crawler puts the items that it was given, and at its end two stops.
ghost use Rattle.std.specs.Prelude.{◌≡◌, ◌⊎◌, ◌+◌, ◌<◌, ◌^◌, ◌++◌, ◌∷◌, [], None, true};
ghost use Rattle.afr_model.specs.Actors.{IsActor};
ghost use Rattle.afr_model.specs.Crawl.{lists_by};
ghost use Rattle.afr_rule.specs.Choosing.{IsRule};
ghost use Rattle.afr_volume.specs.Turning.{due_of};
ghost use Rattle.afr_workers.specs.Cursor.{IsLast};
ghost use Rattle.afr_workers.specs.Workshop.{IsKept, IsOver, IsShop, heal_of};

use crate::crew::Crew;
use crate::next::{Next, next_item};
use crate::workshop::{Workshop, is_full, turns};
use afr_base::{ActorId, FIRST_HEALER};
use afr_crowd::Step;
use afr_rule::{Candidate, Rules};
use afr_tasks::{MOST_TASKS, Task, Tasks};
use afr_volume::Volume;

/// Puts this item, where the queue takes it.
fn put_item(tasks: &mut Tasks, crew: &mut Crew, next: Next) -> bool
    requires { next.at + 1 < 2 ^ 64 }
    ensures { ((tasks.new ≡ record tasks.old { put = tasks.old.put ++ heal_of (next.gfid, next.what) ∷ [] }) × (crew.new ≡ record crew.old { round = next.round; at = next.at + 1 }))
        ⊎ ((tasks.new ≡ tasks.old) × (crew.new ≡ crew.old)) }
{
    if !tasks.put(Task::Heal(next.gfid, next.what)) {
        return false;
    }
    crew.give(next);
    true
}

/// Puts the next item, if there is one and the queue takes it.
fn put_next(x: &mut Workshop) -> bool
    requires { IsShop x.old }
    ensures kept { IsKept x.old x.new }
    ensures volume { x.new.volume ≡ x.old.volume }
{
    if x.stops > 0 {
        return false;
    }
    let Some(next) = next_item(&x.volume, x.crew.round, x.crew.at) else {
        return false;
    };
    let Workshop { tasks, crew, .. } = x;
    put_item(tasks, crew, next)
}

/// Puts as many of the items that were given as the queue takes.
fn put_all(x: &mut Workshop)
    requires { IsShop x.old }
    ensures kept { IsKept x.old x.new }
    ensures volume { x.new.volume ≡ x.old.volume }
{
    for _ in 0..MOST_TASKS {
        if !put_next(x) {
            return;
        }
    }
}

/// Puts a stop, where the queue takes it.
fn put_one_stop(tasks: &mut Tasks, stops: &mut u8)
    requires { stops.old < 2 }
    ensures { ((tasks.new ≡ record tasks.old { put = tasks.old.put ++ Task.Stop ∷ [] }) × (stops.new ≡ stops.old + 1))
        ⊎ ((tasks.new ≡ tasks.old) × (stops.new ≡ stops.old)) }
{
    if tasks.put(Task::Stop) {
        *stops += 1;
    }
}

/// Puts a stop where all items were put and fewer than two stops.
fn put_stop(x: &mut Workshop)
    requires shop { IsShop x.old }
    requires last { IsLast (lists_by x.old.volume.plan x.old.volume.log) x.old.crew.round x.old.crew.at }
    requires over { IsOver x.old.volume }
    ensures kept { IsKept x.old x.new }
    ensures volume { x.new.volume ≡ x.old.volume }
    ensures crew { x.new.crew ≡ x.old.crew }
{
    if x.stops >= 2 {
        return;
    }
    let Workshop { tasks, stops, .. } = x;
    put_one_stop(tasks, stops);
}

/// Both stops, after all items.
fn put_stops(x: &mut Workshop) -> Step
    requires shop { IsShop x.old }
    requires last { IsLast (lists_by x.old.volume.plan x.old.volume.log) x.old.crew.round x.old.crew.at }
    requires over { IsOver x.old.volume }
    ensures { IsKept x.old x.new }
{
    put_stop(x);
    put_stop(x);
    rest(x)
}

/// What it means for the crawler's thread that it rests with so many stops put: it ends where it has put all, or where some
/// actor has no thread.
fn after_rest(stops: u8, is_short: bool) -> Step {
    Step {
        goes: stops < 2 && !is_short,
        wakes: true,
    }
}

/// The crawler rests, or ends.
fn rest(x: &mut Workshop) -> Step
    requires { IsShop x.old }
    ensures { IsKept x.old x.new }
{
    x.rests.crawler = true;
    after_rest(x.stops, x.is_short)
}

/// The end of a crawler that is given no list any more: it puts what is left, and then two stops.
fn end_puts(x: &mut Workshop) -> Step
    requires shop { IsShop x.old }
    requires over { IsOver x.old.volume }
    ensures { IsKept x.old x.new }
{
    let None = next_item(&x.volume, x.crew.round, x.crew.at) else {
        return rest(x);
    };
    put_stops(x)
}

/// Whether the crawler is given no list any more.
fn is_over(volume: &Volume) -> bool
    requires { IsActor volume.now.plan 17 }
    ensures { result ≡ true → IsOver volume.now }
{
    if volume.is_done(ActorId(FIRST_HEALER)) {
        return true;
    }
    is_full(volume)
}

/// A turn of the crawler: it puts what can be put, and adds a line, or ends.
pub(crate) fn crawls<F: Fn(&[Candidate]) -> usize, G: Fn(&[Candidate]) -> usize>(
    x: &mut Workshop,
    rules: &Rules<F, G>,
) -> Step
    requires rule { IsRule F.Fn rules.now.heal }
    requires read_rule { IsRule G.Fn rules.now.read }
    requires none { due_of x.old.volume ≡ None }
    requires shop { IsShop x.old }
    ensures { IsKept x.old x.new }
{
    put_all(x);
    if is_over(&x.volume) {
        return end_puts(x);
    }
    turns(x, ActorId(FIRST_HEALER), rules)
}
