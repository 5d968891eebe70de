//! A heal of one object and kind, as one engine over the register of the discipline: what it asks next.
#![tactic(auto)]

mod coming;
mod due;
mod engine;
mod laws;
mod requests;

pub use coming::Coming;
pub use engine::heal_next;
pub use laws::{each_heal_has_room, each_heal_is_kept, each_heal_stands, each_look_is_judged};
