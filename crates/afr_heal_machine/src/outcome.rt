//! How a heal ends, as far as its lines tell.

use afr_base::{ActorId, BrickId};

/// How a heal will end: `Settled`, until an answer has ended it otherwise. The views of a split are
/// those of the heal's first looks.
#[derive(Clone, Copy, Debug)]
pub enum HealOutcome {
    Settled,
    /// Another actor has the Heal lock.
    Busy(ActorId),
    Short,
    Nothing,
    Split,
    /// This brick showed that the source isn't good any more.
    Moved(BrickId),
    Failed,
}
