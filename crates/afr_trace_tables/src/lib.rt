//! The tables of each brick after the lines of a trace, without changelog numbers.
#![tactic(auto)]

mod laws;

pub use laws::tables_without_numbers_follow_by_themselves;
