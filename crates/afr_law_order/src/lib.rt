//! In which order clients and healers ask for locks.
#![tactic(auto)]

mod heal_order;
mod work_order;

ghost use Rattle.afr_law_order.specs.Queue.{AsksAbove, KeepsRow, StartsQueued, StaysQueued};

pub use heal_order::heals_ask_in_rising_order;
pub use work_order::a_client_asks_in_rising_order;

/// A removal asks for the locks of its directory in rising order of bricks, and holds none on that directory but these: so
/// each is on a higher brick than all that it holds there. `row`: whatever is asked before, the bricks where the name is
/// locked stand in rising order, as this begins with.
pub fn a_removal_asks_above()
    ensures row { KeepsRow }
    ensures start { StartsQueued }
    ensures stays { StaysQueued }
    ensures above { AsksAbove }
{}
