//! The law of quiet rounds: what a round does that nothing disturbs.
#![tactic(auto)]

mod listed;
mod repaired;
mod unmoved;
mod whole;

pub use listed::quiet_rounds_are_listed;
pub use repaired::quiet_rounds_are_repaired;
pub use unmoved::quiet_rounds_are_unmoved;
pub use whole::quiet_rounds_are_whole;
