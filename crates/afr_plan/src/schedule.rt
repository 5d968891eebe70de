//! The rounds of the healers, the faults and events of the outside, and who moves first.
ghost use Rattle.std.specs.Prelude.{◌≡◌};

use afr_base::{ActorId, BrickId, NoMemory};
use afr_lines::{Event, Fault};
use afr_object::{List, TryCopy};

/// The rounds of one healer: the brick whose index each reads.
pub type RoundList = List<BrickId>;

/// The rounds of all healers; healer 1 has the first.
pub type Rounds = List<RoundList>;

/// What goes wrong with the `at`-th request to a brick, counted from 1.
#[derive(Clone, Copy, Debug)]
pub struct PlannedFault {
    pub brick: BrickId,
    pub at: u32,
    pub fault: Fault,
}

pub type Faults = List<PlannedFault>;

/// An event, at the first moment when the log has `at` lines or more.
#[derive(Clone, Copy, Debug)]
pub struct PlannedEvent {
    pub at: u32,
    pub event: Event,
}

/// The events of a plan. Their positions never fall.
pub type Events = List<PlannedEvent>;

/// The actor takes so many turns.
#[derive(Clone, Copy, Debug)]
pub struct Go {
    pub actor: ActorId,
    pub count: u32,
}

pub type Orders = List<Go>;

impl TryCopy for PlannedFault {
    fn copy(&self) -> Result<PlannedFault, NoMemory> {
        Ok(*self)
    }
}

impl TryCopy for PlannedEvent {
    fn copy(&self) -> Result<PlannedEvent, NoMemory> {
        Ok(*self)
    }
}

impl TryCopy for Go {
    fn copy(&self) -> Result<Go, NoMemory> {
        Ok(*self)
    }
}
