//! Locks on ranges of an object, and a table of held locks that serves whatever they cover.
#![tactic(auto)]

mod got;
mod held;
mod late;
mod lockable;
mod locked;
mod ranges;
mod table;

pub use got::Got;
pub use lockable::{Lockable, Place, Reach, Span};
pub use locked::LockTable;
pub use ranges::{ObjectRange, RangeLocks, ranges_share_a_number};
