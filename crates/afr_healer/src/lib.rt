//! A healer of a volume and the line that its round writes next: what it asks of the bricks, and why the log keeps its rules.
#![tactic(auto)]

mod healer;
mod laws;
mod step;

pub use healer::Healer;
pub use laws::a_healer_keeps_its_round;
pub use step::{begin_task, ready_round, step_round};
