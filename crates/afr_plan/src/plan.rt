//! A whole plan, its words, and the ways in which reading one stops.
ghost use Rattle.std.specs.Prelude.{◌≡◌, IfOk};

use crate::command::Scripts;
use crate::schedule::{Events, Faults, Orders, Rounds};
use afr_base::{NoMemory, Shape};
use afr_object::{List, TryCopy};
use thiserror::Error;

/// The bytes of a name, a key or a value.
pub type Word = List<u8>;

pub type WordList = List<Word>;

/// The distinct words of a plan, each list in the order of first sight; the names of the opening
/// files stand before the other names. An id is a place in its list.
#[derive(Debug, Drop)]
pub struct Words {
    pub names: WordList,
    pub keys: WordList,
    pub values: WordList,
}

/// All that a run is given: it is the same at each run of the same plan.
#[derive(Debug, Drop)]
pub struct Plan {
    pub shape: Shape,
    /// How many opening files there are.
    pub files: u32,
    /// How many lines the log may have.
    pub turns: u32,
    pub clients: Scripts,
    pub healers: Rounds,
    pub faults: Faults,
    pub events: Events,
    pub go: Orders,
    pub words: Words,
}

/// The first line of a plan that breaks a rule, counted from 1, and the lowest rule that it breaks.
#[derive(Clone, Copy, Debug, PartialEq, Eq, Error)]
#[error("line {line}, code {code}")]
pub struct PlanFault {
    pub line: u32,
    pub code: u8,
}

/// Why a plan wasn't read.
#[derive(Clone, Copy, Debug, PartialEq, Eq, Error)]
pub enum PlanStop {
    #[error("plan refused: {0}")]
    Refused(PlanFault),
    #[error("no memory")]
    NoMemory,
}

impl From<NoMemory> for PlanStop {
    ghost use Rattle.afr_plan.specs.declared.plan.PlanStop.TheVariants as stops;

    ghost from_gives = { λ _ stop. stop ≡ stops.NoMemory };

    fn from(_: NoMemory) -> PlanStop {
        PlanStop::NoMemory
    }
}

impl TryCopy for Words {
    fn copy(&self) -> Result<Words, NoMemory> {
        let names = self.names.copy()?;
        let keys = self.keys.copy()?;
        let values = self.values.copy()?;
        Ok(Words {
            names,
            keys,
            values,
        })
    }
}

/// The scripts of the clients and the rounds of the healers.
fn copied_scripts(plan: &Plan) -> Result<(Scripts, Rounds), NoMemory>
    ensures ok { IfOk result (λ copied. copied ≡ (plan.now.clients, plan.now.healers)) }
{
    let clients = plan.clients.copy()?;
    let healers = plan.healers.copy()?;
    Ok((clients, healers))
}

/// The faults, the events and the orders.
fn copied_schedule(plan: &Plan) -> Result<(Faults, Events, Orders), NoMemory>
    ensures ok { IfOk result (λ copied. copied ≡ (plan.now.faults, plan.now.events, plan.now.go)) }
{
    let faults = plan.faults.copy()?;
    let events = plan.events.copy()?;
    let go = plan.go.copy()?;
    Ok((faults, events, go))
}

impl TryCopy for Plan {
    fn copy(&self) -> Result<Plan, NoMemory> {
        let words = self.words.copy()?;
        let (clients, healers) = copied_scripts(self)?;
        let (faults, events, go) = copied_schedule(self)?;
        Ok(Plan {
            shape: self.shape,
            files: self.files,
            turns: self.turns,
            clients,
            healers,
            faults,
            events,
            go,
            words,
        })
    }
}
