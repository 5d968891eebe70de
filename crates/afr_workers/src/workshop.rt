//! What lies under the lock of a crawl by threads, and turns and events there.
ghost use Rattle.std.specs.Prelude.{◌≡◌, ◌<◌, None, false, length, true};
ghost use Rattle.afr_model.specs.Actors.{IsActor};
ghost use Rattle.afr_rule.specs.Choosing.{IsRule};
ghost use Rattle.afr_volume.specs.Going.{IsHappening};
ghost use Rattle.afr_volume.specs.Turning.{due_of};
ghost use Rattle.afr_workers.specs.Crew.{IsPlaced};
ghost use Rattle.afr_workers.specs.Workshop.{HasTurned, IsKept, IsShop};

use crate::crew::Crew;
use crate::due::come;
use afr_base::{ActorId, NoMemory};
use afr_crowd::{Held, Step};
use afr_rule::{Candidate, Rules};
use afr_tasks::Tasks;
use afr_volume::{Turned, Volume};

/// The volume, the queue of tasks, and how far the crawler has put and the workers have taken.
#[derive(Drop)]
pub(crate) struct Workshop {
    pub(crate) volume: Volume,
    pub(crate) tasks: Tasks,
    /// The place of the next item that is put, and which workers were killed.
    pub(crate) crew: Crew,
    /// How many stops were put after all items.
    pub(crate) stops: u8,
    pub(crate) held: Held,
    /// Who found at its last turn that it can do nothing: the crawler a queue that takes no task, a worker one that has none.
    pub(crate) rests: Rests,
    /// A turn, an event or a task wanted memory.
    pub(crate) no_memory: bool,
    /// For some actor no thread could be made.
    pub(crate) is_short: bool,
}

#[derive(Clone, Copy, Debug)]
pub(crate) struct Rests {
    pub(crate) crawler: bool,
    pub(crate) second: bool,
    pub(crate) third: bool,
}

/// Whether the log takes no line more.
pub(crate) fn is_full(volume: &Volume) -> bool
    ensures full { result ≡ true → length volume.now.log ≡ volume.now.plan.turns }
    ensures room { result ≡ false → length volume.now.log < volume.now.plan.turns }
{
    volume.every_line();
    volume.len() >= volume.plan().turns
}

/// All events that are due. Want of memory is noted; it answers whether there was none.
fn come_all(volume: &mut Volume, crew: &mut Crew, held: &mut Held, no_memory: &mut bool) -> bool
    requires { IsPlaced crew.old volume.old }
    ensures placed { IsPlaced crew.new volume.new }
    ensures happens { IsHappening volume.old volume.new }
    ensures round { crew.new.round ≡ crew.old.round }
    ensures at { crew.new.at ≡ crew.old.at }
    ensures noted { no_memory.old ≡ true → no_memory.new ≡ true }
    ensures none { result ≡ true → due_of volume.new ≡ None }
{
    let before = volume.len();
    let came = come(volume, crew);
    held.note_events(before, volume.len());
    match came {
        Ok(()) => true,
        Err(NoMemory) => {
            *no_memory = true;
            false
        }
    }
}

/// One turn of an actor. Want of memory is noted, and then there is no answer.
fn take_turn<F: Fn(&[Candidate]) -> usize, G: Fn(&[Candidate]) -> usize>(
    volume: &mut Volume,
    a: ActorId,
    rules: &Rules<F, G>,
    no_memory: &mut bool,
) -> Option<Turned>
    requires rule { IsRule F.Fn rules.now.heal }
    requires read_rule { IsRule G.Fn rules.now.read }
    requires actor { IsActor volume.old.plan a.0 }
    requires none { due_of volume.old ≡ None }
    ensures turned { HasTurned a volume.old volume.new }
    ensures noted { no_memory.old ≡ true → no_memory.new ≡ true }
{
    let turned = volume.turn(a, rules);
    volume.every_line();
    match turned {
        Ok(turned) => Some(turned),
        Err(NoMemory) => {
            *no_memory = true;
            None
        }
    }
}

/// What the turn of an actor, which left the log so long, means for its thread and for those that sleep.
fn after(held: &mut Held, a: ActorId, turned: Option<Turned>, len: u32) -> Step {
    match turned {
        Some(Turned::Moved) => {
            held.note_moved(len);
            Step {
                goes: true,
                wakes: true,
            }
        }
        Some(Turned::Waits(_)) => {
            held.note_held(a, len);
            Step {
                goes: true,
                wakes: false,
            }
        }
        _ => Step {
            goes: false,
            wakes: true,
        },
    }
}

/// The events that are due. It answers whether there was memory for them.
pub(crate) fn events(x: &mut Workshop) -> bool
    requires { IsShop x.old }
    ensures kept { IsKept x.old x.new }
    ensures none { result ≡ true → due_of x.new.volume ≡ None }
{
    let Workshop {
        volume,
        crew,
        held,
        no_memory,
        ..
    } = x;
    come_all(volume, crew, held, no_memory)
}

/// One turn of an actor.
pub(crate) fn turns<F: Fn(&[Candidate]) -> usize, G: Fn(&[Candidate]) -> usize>(
    x: &mut Workshop,
    a: ActorId,
    rules: &Rules<F, G>,
) -> Step
    requires rule { IsRule F.Fn rules.now.heal }
    requires read_rule { IsRule G.Fn rules.now.read }
    requires actor { IsActor x.old.volume.plan a.0 }
    requires none { due_of x.old.volume ≡ None }
    requires shop { IsShop x.old }
    ensures { IsKept x.old x.new }
{
    let Workshop {
        volume,
        held,
        no_memory,
        ..
    } = x;
    let turned = take_turn(volume, a, rules, no_memory);
    let len = volume.len();
    after(held, a, turned, len)
}
