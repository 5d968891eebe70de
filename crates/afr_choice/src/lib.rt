//! Which copies of an object are good, by the changelog numbers of the bricks that were looked at.
#![tactic(auto)]

mod by_views;
mod looked;
mod verdict;

pub use by_views::{good_shown, holds, is_good, is_unaccused, keeps, shown};
pub use looked::{Looked, marks_shown};
pub use verdict::{Verdict, accusers, copies, good, has_copy, holders, judge};
