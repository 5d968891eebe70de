//! Locks on names of a directory.
#![tactic(auto)]

mod names;

pub use names::{DirName, NameLocks};
