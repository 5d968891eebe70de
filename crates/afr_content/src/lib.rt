//! The bytes of one file in pages, which calls write at an offset, cut, copy in and read.
#![tactic(auto)]

mod bytes;
mod content;
mod page;
mod pages;

pub use bytes::bytes_after_a_call;
pub use content::{Content, NoMemory, bytes_reach_a_page};
