//! How many lines a heal, a round and a healer have left.
#![tactic(auto)]

mod healer_lines;
mod index_lines;
mod round_lines;

ghost use Rattle.afr_law_cost.specs.Laws.{BegunRooted, HealComesNearer, HealKeepsEnd, HealStartsWithin, StartsRooted, StaysRooted};

pub use healer_lines::a_round_keeps_within_its_cost;
pub use index_lines::indexes_are_short;
pub use round_lines::{a_heals_machine_comes_nearer, a_round_comes_nearer};

/// Whatever the bricks answer, each line of a heal takes one from the lines that it has left, but for a Work lock that
/// another holds and an unlock that failed.
pub fn a_heal_comes_nearer()
    ensures asked { HealComesNearer }
    ensures end { HealKeepsEnd }
    ensures start { HealStartsWithin }
{}

/// A heal holds Work locks of an area alone.
pub fn a_heal_keeps_its_area()
    ensures asked { StaysRooted }
    ensures begun { BegunRooted }
    ensures start { StartsRooted }
{}
