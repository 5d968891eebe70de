//! Where bytes come from and where they go: sources and sinks that count their faults, and the calls that read and write the whole.
#![tactic(auto)]

mod memory;
mod outside;
mod std_edge;
mod whole;

pub use memory::{MemSink, MemSource, SureSink, SureSource};
pub use outside::{Failed, Sink, Source};
pub use std_edge::{StdSink, StdSource};
pub use whole::{ReadStop, WriteFault, read_all, write_all};
