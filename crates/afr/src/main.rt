//! The program: standard input and output, the words of the call, and the exit status.
#![tactic(auto)]

#[cfg(test)]
mod crawl_tests;
#[cfg(test)]
mod hostile_tests;
#[cfg(test)]
mod live_tests;
#[cfg(test)]
mod record_tests;
#[cfg(test)]
mod tests;

use afr_cli::{afr_live, afr_top};
use afr_live::NoGate;
use afr_rule::{ReadRule, Rules, SourceRule, shipped};
use afr_text::{StdSink, StdSource};
use afr_volume::Volume;
use std::alloc::Global;
use std::io::ErrorKind;
use std::mem::ManuallyDrop;
use std::process::ExitCode;
use std::rt::Env;
use std::{env, io};

fn main(rt: HostRuntime) -> ExitCode {
    let words = match words_after_the_name(&rt, rt.alloc()) {
        Ok(words) => words,
        Err(error) if error.kind() == ErrorKind::OutOfMemory => return ExitCode::from(6),
        // A word that isn't text is no form of the call, as no word at all.
        Err(_) => Vec::new(rt.alloc()),
    };
    let mut source = StdSource::new(rt.reader());
    let mut sink = StdSink::new(io::writer(&rt));
    let mut volume = ManuallyDrop::new(Volume::empty(rt.alloc()));
    let rules = Rules {
        heal: SourceRule::new(shipped::longest),
        read: ReadRule::new(shipped::first),
    };
    let status = if is_live(&words) {
        afr_live(
            &rt,
            rt.alloc(),
            &words,
            &mut source,
            &mut sink,
            &mut *volume,
            &rules,
            &NoGate,
        )
    } else {
        afr_top(
            rt.alloc(),
            &words,
            &mut source,
            &mut sink,
            &mut *volume,
            &rules,
        )
    };
    ExitCode::from(status)
}

/// The words of the call, but for the name that the program is called by.
fn words_after_the_name<R: Env + Alloc<A = Global>>(
    rt: &R,
    alloc: Global,
) -> io::Result<Vec<String>> {
    let mut words = env::args(rt)?;
    let _name = words.next();
    Ok(words.collect(alloc)?)
}

/// Whether the call for runs by threads and crawls serves these words, by the first.
fn is_live(words: &[String]) -> bool {
    match words.first() {
        Some(first) => matches!(first.as_str(), "live" | "crawl" | "record"),
        None => false,
    }
}
