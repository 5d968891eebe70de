//! The log of a volume: one entry a line, nearly all requests in 40 bytes each.
#![tactic(auto)]

mod asked;
mod heals;
mod id;
mod log;
mod marked;
mod packed;
mod packing;
mod shown;
mod small;
mod waits;

pub use asked::Asker;
pub use heals::ShortEnd;
pub use log::Log;
pub use shown::{ShownLine, ToldLine};
