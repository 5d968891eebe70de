//! The next line of a round.
use afr_base::{BrickId, Gfid, Kind};

/// What a round does next: it asks a brick, begins a part of a heal, ends a heal, or ends. Its request stands where its asker
/// wants it.
#[derive(Clone, Copy)]
pub enum RoundComing {
    Ask(BrickId),
    Begin(Gfid, Kind),
    HealEnd(Gfid, Kind),
    End,
}
