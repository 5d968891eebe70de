//! The names that a heal gives every holder of a directory: those that the holders have, merged.
#![tactic(auto)]

mod common;
mod laws;
mod merge;
mod same;

pub use laws::a_merge_keeps_the_greatest;
pub use merge::merged_names;
pub use same::are_same_names;
