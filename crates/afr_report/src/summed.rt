//! The summary of a run, as text: seven lines of counts.

mod ends;
mod lines;
mod of_volume;
mod summary;

pub use of_volume::summary_text;
pub use summary::print_summary;
