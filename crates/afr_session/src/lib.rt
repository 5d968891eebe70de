//! The sessions of actors with one brick.
#![tactic(auto)]

mod link;
mod sessions;

pub use sessions::{Sessions, epochs_rise};
