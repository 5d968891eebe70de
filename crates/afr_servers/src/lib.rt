//! The servers of a volume together: a request goes to one brick, the first line of a work meets them all, and an event comes to each.
#![tactic(auto)]

mod asking;
mod epochs;
mod events;
mod exchange;
mod laws;
mod meeting;
mod opening;
mod servers;
mod started;
mod visit;

pub use epochs::Epochs;
pub use exchange::Exchange;
pub use laws::servers_follow_their_log;
pub use servers::Servers;
pub use visit::Visit;
