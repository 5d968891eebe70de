//! What a heal hears of honest bricks, and what goes with its repairs.

mod heals;

pub use heals::a_heal_hears_what_it_asked;
