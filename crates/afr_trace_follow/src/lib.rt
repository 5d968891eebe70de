//! Whether a line of a trace is what the plan has for its moment, judged by a tally of the lines before.
#![tactic(auto)]

mod asked;
mod commands;
mod facts;
mod following;
mod keeping;
mod lists;
mod marked;
mod parts;
mod path;
mod renamed;
mod rounds;
mod stand;

pub use following::is_following;
pub use lists::Lists;
pub use parts::work_start;
pub use rounds::object_of_area;
