//! The removal of a directory that its name has led to: the whole child is locked, looked at and listed before its name is changed.

mod child;
mod laws;
mod machine;
mod stage;

pub use child::Child;
pub use laws::a_removal_stays_sound;
pub use machine::Removal;
pub use stage::{RemovalEnding, RemovalStage};
