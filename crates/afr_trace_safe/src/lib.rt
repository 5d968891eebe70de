//! Whether each good copy has what was acknowledged, after one more line of a log after which each had.
#![tactic(auto)]

mod acknowledged;
mod attempts;
mod cell;
mod copies;
mod current;
mod kinds;
mod objects;
mod safe;
mod touching;
mod value;

pub use safe::is_safe;
pub use touching::touched;
