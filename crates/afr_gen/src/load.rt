//! The whole plan of a generated load.
ghost use Rattle.std.specs.Prelude.{◌≡◌, ◌≤◌, ◌∷◌, [], IfOk};
ghost use Rattle.afr_gen.specs.Generated as specs;
ghost use Rattle.afr_gen.specs.Generated.{generated};
ghost use Rattle.afr_gen.specs.Laws.{GeneratedIsRunnable, GeneratedIsSaid};

use crate::commands::draw_script;
use crate::wording::{FILES, make_words, value};
use afr_base::{BrickId, NoMemory, Shape};
use afr_lines::Event;
use afr_object::List;
use afr_plan::{Events, Plan, PlannedEvent, Rounds, Scripts, WordList, limits};
use std::alloc::Global;

const BRICKS: u8 = 3;

const CLIENTS: u8 = 4;

/// The brick that is away for a time.
const AWAY: BrickId = BrickId(2);

/// The commands of all clients, and the values that they set.
#[derive(Drop)]
struct Load {
    scripts: Scripts,
    values: WordList,
}

/// The plan of a generated load: four clients with `n` commands each over eight files, three rounds of a healer, and a brick
/// that stops and starts again. The same number gives the same plan. Time and memory are linear in `n`.
#[tactic(auto, unfolding(crate::specs::Generated::generated))]
pub fn gen_plan(alloc: Global, n: u32) -> Result<Plan, NoMemory>
    requires some { 1 ≤ n }
    requires few { n ≤ 2000 }
    ensures ok { IfOk result (λ plan. plan ≡ generated n) }
{
    let Load { scripts, values } = load_of(alloc, n)?;
    let healers = healers(alloc)?;
    let events = events(alloc)?;
    let words = make_words(alloc, values)?;
    Ok(Plan {
        shape: Shape {
            n: BRICKS,
            arbiter: false,
        },
        files: FILES,
        turns: limits::TURNS,
        clients: scripts,
        healers,
        faults: List::new(alloc),
        events,
        go: List::new(alloc),
        words,
    })
}

/// The volume can run every generated plan.
pub fn generated_plans_are_runnable()
    ensures { GeneratedIsRunnable }
{}

/// A generated plan is the one that its lines give, as reading them from a text would: every word is numbered where it is
/// first seen.
pub fn generated_plans_are_their_lines()
    ensures { GeneratedIsSaid }
{}

/// All clients, one after the other: each goes on drawing where the one before stopped.
fn load_of(alloc: Global, n: u32) -> Result<Load, NoMemory>
    ensures scripts { IfOk result (λ load. load.scripts ≡ specs.scripts n 4) }
    ensures values { IfOk result (λ load. load.values ≡ specs.values n 4) }
{
    let mut scripts = List::new(alloc);
    let mut values: WordList = List::new(alloc);
    let mut last = n;
    for before in 0..CLIENTS {
        let drawn = draw_script(alloc, n, before, values.len() as u32, last)?;
        last = drawn.last;
        if drawn.has_set {
            values.push(value(alloc, before + 1)?)?;
        }
        scripts.push(drawn.script)?;
    }
    Ok(Load { scripts, values })
}

/// One healer, with a round over each brick.
fn healers(alloc: Global) -> Result<Rounds, NoMemory>
    ensures ok { IfOk result (λ healers. healers ≡ specs.rounds ∷ []) }
{
    let mut rounds = List::new(alloc);
    rounds.push(BrickId(0))?;
    rounds.push(BrickId(1))?;
    rounds.push(BrickId(2))?;
    let mut healers = List::new(alloc);
    healers.push(rounds)?;
    Ok(healers)
}

/// The brick stops and starts again.
fn events(alloc: Global) -> Result<Events, NoMemory>
    ensures ok { IfOk result (λ events. events ≡ specs.events) }
{
    let mut events = List::new(alloc);
    events.push(PlannedEvent {
        at: 50,
        event: Event::Stop(AWAY),
    })?;
    events.push(PlannedEvent {
        at: 400,
        event: Event::Start(AWAY),
    })?;
    Ok(events)
}
