//! What one line of a plan says by itself.
#![tactic(auto)]

mod bytes;
mod parts;
mod path;
mod say;
mod spoken;

pub use bytes::{hex_byte, is_name_byte, is_plain, is_same, key, numeral, skip};
pub use parts::data_len;
pub use path::{PathNames, is_name, is_path_beyond, names_of};
pub use say::say_line;
pub use spoken::{Spoken, SpokenAction, SpokenData, SpokenEvent, SpokenWho};
