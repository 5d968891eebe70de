//! A volume run by threads: one for each actor, over a lock round the volume.
#![tactic(auto)]

mod rest;
mod shared;
mod tally;
mod threads;

pub use afr_crowd::{Gate, NoGate};
pub use threads::live;
