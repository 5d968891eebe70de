//! What an actor may do next, and what its lines so far show: the discipline as a test of each move.
#![tactic(auto)]

mod answers;
mod areas;
mod heal_asks;
mod heal_moves;
mod heal_numbers;
mod heal_owed;
mod heal_possible;
mod heal_reads;
mod heal_sets;
mod heal_turns;
mod heals;
mod laws;
mod moves;
mod note_alone;
mod note_heal;
mod note_law;
mod note_steps;
mod note_stops;
mod notes;
mod of_five;
mod of_heals;
mod outside;
mod register;
mod steps;
mod views;

pub use heal_owed::owed_at;
pub use heal_sets::are_asked;
pub use heal_turns::{first_candidate, first_of, turn_of};
pub use heals::len_at;
pub use laws::{each_move_is_decided, each_note_stands, has_five};
pub use moves::may;
pub use note_alone::note_outside;
pub use note_steps::asked_at;
pub use notes::{note, note_allowed, note_free};
pub use of_heals::{begun, healed, present_part, present_step};
pub use register::{HealPart, Move, Register, Step, fresh, renew};
pub use views::suffices;
