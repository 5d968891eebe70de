//! Actors that take turns over one lock, each in a thread of its own.
#![tactic(auto)]

mod crowd;
mod gate;
mod held;
mod threads;

pub use crowd::{Crowd, Step};
pub use gate::{Gate, NoGate};
pub use held::Held;
pub use threads::run_crowd;
