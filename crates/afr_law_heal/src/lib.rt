//! What the lines of a heal show, and what honest bricks let it hear.
#![tactic(auto)]

mod heals;
mod heals_heard;

pub use heals::a_heal_tells_its_lines;
pub use heals_heard::a_heal_hears_what_it_asked;
