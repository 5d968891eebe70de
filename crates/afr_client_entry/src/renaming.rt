//! The rename of a file: its path is walked, the new name is made, and then the old one is removed. These are two transactions in
//! one work; between them both names stand.

mod laws;
mod machine;
mod paths;
mod refusal;
mod stage;
mod under;

pub use laws::{a_rename_keeps_the_discipline, a_rename_reads_good_copies};
pub use machine::RenameMachine;
pub use paths::Paths;
pub use stage::RenameStage;
