//! Commands that change an object: its path is walked, and then one transaction changes what it leads to.
#![tactic(auto)]

mod job;
mod laws;
mod machine;
mod stage;

pub use job::WriteJob;
pub use laws::{a_write_keeps_the_discipline, a_write_reads_good_copies};
pub use machine::WriteMachine;
pub use stage::WriteStage;
