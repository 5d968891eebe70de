//! Runs that were recorded: the image of a volume, and the same lines made again of one.

mod replaying;
mod steps;
mod turns;

pub use replaying::{Replayed, replay, replay_steps};
pub use turns::with_turns;
