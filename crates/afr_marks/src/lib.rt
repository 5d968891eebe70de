//! Changelog attributes: their names, and their values as twelve bytes and as text.
#![tactic(auto)]

mod attribute;
mod text;
mod value;

pub use attribute::{Which, attr_name};
pub use text::value_text;
pub use value::{numbers_of, value_bytes};
