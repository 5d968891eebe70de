//! One brick: its copies of objects, and the requests that look at them, read them and change them.
#![tactic(auto)]

mod brick;
mod changes;
mod index;
mod numbers;
mod object;
mod places;
mod reads;
mod refused;
mod repairs;
mod same;
mod shortcuts;
mod store;

pub use brick::Brick;
pub use refused::Refused;
