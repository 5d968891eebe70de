//! The program without its outside: words, a source and a sink come in, a status goes out.
#![tactic(auto)]

mod checking;
mod crawling;
mod finished;
mod found;
mod generated;
mod imaged;
mod live;
mod messages;
mod parts;
mod program;
mod reading;
mod recording;
mod replaying;
mod running;
mod status;

pub use live::afr_live;
pub use program::afr_top;
