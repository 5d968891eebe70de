//! The plan of a run: the volume, the scripts of its actors, and what goes wrong when.
#![tactic(auto)]

mod command;
pub mod limits;
mod plan;
mod schedule;
mod version;

pub use command::{Command, NamePath, Script, Scripts};
pub use plan::{Plan, PlanFault, PlanStop, Word, WordList, Words};
pub use schedule::{Events, Faults, Go, Orders, PlannedEvent, PlannedFault, RoundList, Rounds};
pub use version::Version;
