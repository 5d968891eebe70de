//! That a reader keeps to the copy, and a heal to the source, which its rule picked.
#![tactic(auto)]

mod laws;
mod source_picks;

pub use laws::{a_work_asks_the_rule, a_work_reads_what_was_picked};
pub use source_picks::{a_line_keeps_its_source, chosen_source};
