//! What the lines of a log have made of bricks and actors, kept up to date one line more at a time: tables, sums, locks, sessions, works.
//! Which plans the check of a trace takes.
#![tactic(auto)]

mod actors;
mod asked;
mod bricks;
mod contents;
mod counts;
mod entries;
mod limits;
mod locks;
mod sessions;
mod stop;
mod tables;
mod tally;
mod works;

pub use limits::{LONGEST_CHECKED, is_past_limit};
pub use stop::TallyStop;
pub use tally::Tally;
