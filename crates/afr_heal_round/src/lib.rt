//! The machine of a healer's round: the index of one brick is asked once, and each object in its list is healed.
#![tactic(auto)]

mod coming;
mod due_list;
mod machine;
mod stage;

pub use coming::RoundComing;
pub use machine::RoundMachine;
pub use stage::RoundStage;
