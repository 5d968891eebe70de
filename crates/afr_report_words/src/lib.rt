//! The words that reports and traces share: replies, how a heal ended, actors, kinds, gfids, and the words of a plan.
#![tactic(auto)]

mod heals;
mod names;
mod numbers;
mod replies;
mod text;
mod words;

pub use heals::{push_actor, push_heal_reply};
pub use numbers::{push_hex, push_long_number, push_number};
pub use replies::push_reply;
pub use text::{kind_word, push_gfid, push_word};
pub use words::push_word_at;
