//! Commands that read an object: no lock is taken, every brick is looked at, and the good copy is read that the read rule
//! picks.
#![tactic(auto)]

mod job;
mod laws;
mod machine;
mod stage;

pub use job::{LookupJob, Wanted};
pub use laws::{a_lookup_keeps_the_discipline, a_picked_copy_is_good};
pub use machine::LookupMachine;
pub use stage::LookupStage;
