//! The text of a plan, which is read as the same plan again.
#![tactic(auto)]

mod commands;
mod data_forms;
mod print;
mod schedule;
mod words;

pub use data_forms::no_word_of_data_is_shorter;
pub use print::{a_printed_plan_is_read_again, print_plan};
