//! The trace of a log, as text: a text line for each line of the log.
#![tactic(auto)]

mod answers;
mod askers;
mod changes;
mod endings;
mod gathered;
mod lines;
mod numbers;
mod objects;
mod repairs;
mod repeats;
mod requests;
mod rows;
mod spelled;
mod texts;
mod written;

pub use gathered::{Gathered, gather_trace};
pub use lines::push_line;
pub use written::write_trace;
