//! A brick's server: the brick behind its locks, the sessions of the actors, and the faults that are planned for it.
#![tactic(auto)]

mod ask;
mod carry_out;
mod changes;
mod events;
mod laws;
mod locks;
mod planned;
mod reads;
mod said;
mod server;

pub use laws::a_server_follows_its_log;
pub use planned::planned_faults;
pub use server::{Served, Server};
