//! The tasks between a crawler and two heal workers: one puts them, each of the others takes from the front.
#![tactic(auto)]

mod rule;
mod tasks;

pub use rule::{Hand, Task};
pub use tasks::{MOST_TASKS, Tasks, Worker};
