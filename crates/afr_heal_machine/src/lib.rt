//! The machine of a heal of one kind of one object: its engine, the source that the rule picked, and the contents that it read.
#![tactic(auto)]

mod causes;
mod choosing;
mod contents;
mod copies;
mod ending;
mod hearing;
mod laws;
mod machine;
mod moving;
mod outcome;

pub use contents::{NamesRead, ReadSoFar};
pub use laws::a_heal_stays_sound;
pub use machine::HealMachine;
pub use outcome::HealOutcome;
