//! The trace of a log of a small plan.

use afr_base::{NoMemory, Shape};
use afr_lines::Line;
use afr_log::Log;
use afr_object::List;
use afr_plan::{Plan, Word, WordList, Words};
use afr_report_trace::{gather_trace, write_trace};
use afr_text::MemSink;
use std::alloc::Global;

/// A plan of some bricks with one opening file, and with two names, a key and a value.
fn small_plan(alloc: Global, n: u8) -> Result<Plan, NoMemory> {
    Ok(Plan {
        shape: Shape { n, arbiter: false },
        files: 1,
        turns: 99,
        clients: List::new(alloc),
        healers: List::new(alloc),
        faults: List::new(alloc),
        events: List::new(alloc),
        go: List::new(alloc),
        words: Words {
            names: words(alloc, &[b"f1".as_slice(), b"note".as_slice()])?,
            keys: words(alloc, &[b"owner".as_slice()])?,
            values: words(alloc, &[b"alice".as_slice()])?,
        },
    })
}

fn words(alloc: Global, texts: &[&[u8]]) -> Result<WordList, NoMemory> {
    let mut list = List::new(alloc);
    for text in texts {
        list.push(word(alloc, text)?)?;
    }
    Ok(list)
}

fn word(alloc: Global, text: &[u8]) -> Result<Word, NoMemory> {
    Ok(List::from_vec(text.to_vec(alloc)?))
}

/// Whether the small plan's log has this trace.
pub fn reads(alloc: Global, n: u8, log: Result<Vec<Line>, NoMemory>, text: &str) -> bool {
    match (small_plan(alloc, n), log) {
        (Ok(plan), Ok(log)) => is_trace(alloc, &plan, log, text),
        _ => false,
    }
}

fn is_trace(alloc: Global, plan: &Plan, lines: Vec<Line>, text: &str) -> bool {
    match trace(alloc, plan, lines) {
        Ok(sink) => sink.taken() == text.as_bytes(),
        Err(_) => false,
    }
}

/// A sink that has taken the trace, all of it in the first call.
fn trace(alloc: Global, plan: &Plan, lines: Vec<Line>) -> Result<MemSink, NoMemory> {
    let log = Log::of(alloc, lines)?;
    let gathered = gather_trace(alloc, plan, &log)?;
    let mut sink = MemSink::new(alloc, usize::MAX, Vec::new(alloc));
    match write_trace(gathered, &mut sink) {
        Ok(()) => Ok(sink),
        Err(_) => Err(NoMemory),
    }
}
