//! The volume: the log, the bricks behind their servers, and the actors. A turn or an event adds one line.
#![tactic(auto)]

mod actor;
mod due;
mod healers;
mod laws;
mod lists;
mod set_up;
mod turned;
mod turns;
mod volume;

pub use due::come_due;
pub use turned::Turned;
pub use volume::Volume;
