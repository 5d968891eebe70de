//! A path on its way from the root, over the register of the discipline: looks at every copy, then a name of the good one that
//! the read rule picks.
#![tactic(auto)]

mod choosing;
mod looks;
mod stop;
mod walk;

pub use choosing::{pick, pick_if, reader_of};
pub use looks::Looks;
pub use stop::{Stop, stop_reply};
pub use walk::{Walk, WalkStep, names_of};
