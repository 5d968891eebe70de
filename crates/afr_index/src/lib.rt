//! The heal index of a brick: the objects that may need heal.
#![tactic(auto)]

mod index;
mod late;

pub use index::Index;
