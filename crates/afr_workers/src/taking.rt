//! A worker takes a task, and is given it or passes it over.
ghost use Rattle.std.specs.Prelude.{◌≡◌, ◌⊎◌, ◌-◌, Contains, None, Some, false, length, slice_get, true};
ghost use Rattle.afr_lines.specs.Work.{is_killed};
ghost use Rattle.afr_model.specs.Actors.{IsActor};
ghost use Rattle.afr_model.specs.Crawl.{IsGiven, IsWorker};
ghost use Rattle.afr_rule.specs.Choosing.{IsRule};
ghost use Rattle.afr_volume.specs.Tasks.{is_done_in};
ghost use Rattle.afr_volume.specs.Turning.{due_of};
ghost use Rattle.afr_workers.specs.Crew.{IsPlaced};
ghost use Rattle.afr_workers.specs.Cursor.{Item};
ghost use Rattle.afr_workers.specs.Workshop.{GivesItem, IsKept, IsShop, TakesTask, heal_of, number_of};

use crate::crew::Crew;
use crate::workshop::{Rests, Workshop, is_full, turns};
use afr_base::{ActorId, Gfid, NoMemory, What};
use afr_crowd::Step;
use afr_rule::{Candidate, Rules};
use afr_tasks::{Task, Tasks, Worker};
use afr_volume::Volume;

/// What a worker took.
#[derive(Clone, Copy, Debug, PartialEq, Eq)]
enum Took {
    Nothing,
    Stop,
    /// An item, which it was given.
    Given,
    /// An item, which it passed over.
    Passed,
}

/// The worker is given the item, or it is noted that memory was wanting.
fn assign(volume: &mut Volume, a: ActorId, gfid: Gfid, what: What, no_memory: &mut bool) -> Took
    requires worker { IsWorker a.0 }
    requires crawls { volume.old.crawl ≡ true }
    requires alive { is_killed a.0 volume.old.log ≡ false }
    requires idle { slice_get volume.old.tasks (a.0 - 18) ≡ Some None }
    requires given { IsGiven volume.old.plan (gfid, what) volume.old.log }
    ensures gives { GivesItem a.0 (gfid, what) volume.old volume.new no_memory.new }
    ensures noted { no_memory.old ≡ true → no_memory.new ≡ true }
{
    match volume.assign(a, gfid, what) {
        Ok(()) => Took::Given,
        Err(NoMemory) => {
            *no_memory = true;
            Took::Passed
        }
    }
}

/// A worker that can't go on with a task has taken this item: it is given it, or passes it over where it was killed or the log
/// is full.
fn give(
    volume: &mut Volume,
    crew: &Crew,
    a: ActorId,
    gfid: Gfid,
    what: What,
    no_memory: &mut bool,
) -> Took
    requires worker { IsWorker a.0 }
    requires placed { IsPlaced crew.now volume.old }
    requires idle { (is_done_in a.0 volume.old ≡ true) ⊎ (length volume.old.log ≡ volume.old.plan.turns) }
    requires given { IsGiven volume.old.plan (gfid, what) volume.old.log }
    ensures gives { GivesItem a.0 (gfid, what) volume.old volume.new no_memory.new }
    ensures noted { no_memory.old ≡ true → no_memory.new ≡ true }
{
    if crew.is_dead(a) {
        return Took::Passed;
    }
    if is_full(volume) {
        return Took::Passed;
    }
    assign(volume, a, gfid, what, no_memory)
}

/// A worker that can't go on with a task takes what waits longest.
fn take_task(
    volume: &mut Volume,
    tasks: &mut Tasks,
    crew: &Crew,
    a: ActorId,
    worker: Worker,
    no_memory: &mut bool,
) -> Took
    requires worker { a.0 ≡ number_of worker }
    requires placed { IsPlaced crew.now volume.old }
    requires idle { (is_done_in a.0 volume.old ≡ true) ⊎ (length volume.old.log ≡ volume.old.plan.turns) }
    requires given { (item : Item) → Contains tasks.old.put (heal_of item) → IsGiven volume.old.plan item volume.old.log }
    ensures takes { TakesTask worker volume.old volume.new no_memory.new tasks.old tasks.new }
    ensures noted { no_memory.old ≡ true → no_memory.new ≡ true }
{
    let Some(task) = tasks.take(worker) else {
        return Took::Nothing;
    };
    match task {
        Task::Stop => Took::Stop,
        Task::Heal(gfid, what) => give(volume, crew, a, gfid, what, no_memory),
    }
}

/// The same of what lies under the lock.
fn take(x: &mut Workshop, a: ActorId, worker: Worker) -> Took
    requires worker { a.0 ≡ number_of worker }
    requires idle { (is_done_in a.0 x.old.volume ≡ true) ⊎ (length x.old.volume.log ≡ x.old.volume.plan.turns) }
    requires shop { IsShop x.old }
    ensures kept { IsKept x.old x.new }
    ensures due { due_of x.old.volume ≡ None → due_of x.new.volume ≡ None }
{
    let Workshop {
        volume,
        tasks,
        crew,
        no_memory,
        ..
    } = x;
    take_task(volume, tasks, crew, a, worker, no_memory)
}

/// Whether a worker can go on with a task.
fn can_go_on(volume: &Volume, a: ActorId) -> bool
    requires { IsActor volume.now.plan a.0 }
    ensures { result ≡ false → (is_done_in a.0 volume.now ≡ true) ⊎ (length volume.now.log ≡ volume.now.plan.turns) }
{
    if volume.is_done(a) {
        return false;
    }
    !is_full(volume)
}

/// Who rests once this worker has found a task, or none.
fn rests_after(rests: Rests, worker: Worker, found: bool) -> Rests {
    match worker {
        Worker::Second => Rests {
            second: !found,
            ..rests
        },
        Worker::Third => Rests {
            third: !found,
            ..rests
        },
    }
}

/// Notes whether a worker has found a task.
fn note_found(x: &mut Workshop, worker: Worker, found: bool)
    requires { IsShop x.old }
    ensures kept { IsKept x.old x.new }
    ensures volume { x.new.volume ≡ x.old.volume }
{
    x.rests = rests_after(x.rests, worker, found);
}

/// What a worker has taken, other than an item that it was given, means for its thread and for those that sleep.
fn after_task(took: Took, is_short: bool) -> Step {
    let rests = took == Took::Nothing;
    Step {
        goes: took == Took::Passed || (rests && !is_short),
        wakes: !rests,
    }
}

/// A turn of a worker. One that can't go on with a task takes one first.
pub(crate) fn works<F: Fn(&[Candidate]) -> usize, G: Fn(&[Candidate]) -> usize>(
    x: &mut Workshop,
    a: ActorId,
    worker: Worker,
    rules: &Rules<F, G>,
) -> Step
    requires rule { IsRule F.Fn rules.now.heal }
    requires read_rule { IsRule G.Fn rules.now.read }
    requires worker { a.0 ≡ number_of worker }
    requires none { due_of x.old.volume ≡ None }
    requires shop { IsShop x.old }
    ensures { IsKept x.old x.new }
{
    if can_go_on(&x.volume, a) {
        return turns(x, a, rules);
    }
    let took = take(x, a, worker);
    note_found(x, worker, took != Took::Nothing);
    if took == Took::Given {
        return turns(x, a, rules);
    }
    after_task(took, x.is_short)
}
