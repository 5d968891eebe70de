//! What needs heal, as text: the started bricks, and each object that may need heal with its verdicts and values.
#![tactic(auto)]

mod counts;
mod info;
mod looking;
mod marked;
mod marks;
mod objects;
mod reach;
mod verdicts;

pub use counts::{ObjectCounts, count_objects};
pub use info::print_info;
