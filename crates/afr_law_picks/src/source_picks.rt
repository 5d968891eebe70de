//! The sources of the heals: each is one that the stored rule picked.

mod chosen;
mod laws;

pub use chosen::chosen_source;
pub use laws::a_line_keeps_its_source;
