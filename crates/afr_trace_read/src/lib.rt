//! The reader of a trace's text: what each of its lines says, with nothing of what the text leaves out.
#![tactic(auto)]

mod answers;
mod bytes;
mod changes;
mod contents;
mod kinds;
mod lines;
mod lists;
mod parts;
mod requests;
mod spans;
mod trace;
mod words;

pub use contents::{digits_given, name_behind, stat_given, value_given};
pub use kinds::{
    Answered, Doing, Healed, Span, SpelledChange, SpelledReply, SpelledRequest, TraceLine,
};
pub use lines::{a_line_is_printed_as_it_is_spelled, a_line_is_read_exactly, read_line};
pub use trace::{SpelledLine, TraceRead, TraceStop, read_trace};
