//! Commands on a name of a directory: the directory's path is walked, the name is locked and read, and then changed.
#![tactic(auto)]

mod job;
mod laws;
mod machine;
mod refusal;
mod removing;
mod renaming;
mod stage;
mod under;

pub use job::EntryJob;
pub use laws::{an_entry_keeps_the_discipline, an_entry_reads_good_copies};
pub use machine::EntryMachine;
pub use refusal::Refusal;
pub use removing::{Child, Removal, RemovalEnding, RemovalStage, a_removal_stays_sound};
pub use renaming::{
    Paths, RenameMachine, RenameStage, a_rename_keeps_the_discipline, a_rename_reads_good_copies,
};
pub use stage::{EntryStage, Found};
