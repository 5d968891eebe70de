//! The log that a trace stands for: each line is filled with what its text leaves out, from the lines before it.
#![tactic(auto)]

mod earlier;
mod filling;
mod given;
mod laws;
mod named;
mod requests;
mod showing;

pub use filling::{Filled, fill};
pub use laws::a_filled_line_is_its_text;
pub use showing::Shown;
