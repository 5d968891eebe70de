//! The lines of the log: requests with their locks and faults, answers, replies, events, and what stands in a log.
#![tactic(auto)]

mod answer;
mod fault;
mod kept_reply;
mod line;
mod lock;
mod log;
mod reply;
mod request;

pub use answer::{Answer, Told, told_of};
pub use fault::Fault;
pub use kept_reply::KeptReply;
pub use line::{Event, Heard, Line, Next};
pub use lock::{Domain, HeldLock};
pub use log::{change_at, change_of, ends_work, is_end, is_of, line_at};
pub use reply::{Good, HealReply, Reply};
pub use request::{Area, Request, kind_for};
