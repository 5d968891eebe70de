//! A trace, line by line.
ghost use Rattle.std.specs.Prelude.{◌≡◌, ◌<◌, ◌≤◌, IfOk, map, reverse};
ghost use Rattle.afr_trace_read.specs.Seen.{seen_line};
ghost use Rattle.afr_trace_read.specs.Trace.{line_feeds, trace_told};

use crate::kinds::TraceLine;
use crate::lines::read_line;
use afr_plan::Plan;
use afr_plan_read::cut;
use std::alloc::Global;

/// The most lines that a trace may have.
const MOST_LINES: usize = 2_000;

/// A line, and what its command gave: nothing, or the text behind `ok`, from the space on.
#[derive(Clone, Copy, Drop)]
pub struct SpelledLine<'a> {
    pub line: TraceLine,
    pub contents: &'a [u8],
}

/// What a trace says: its lines up to the first that is the text of no line, the oldest first, and whether there is such a one.
#[derive(Drop)]
pub struct TraceRead<'a> {
    pub lines: Vec<SpelledLine<'a>>,
    pub broken: bool,
}

/// Why a trace wasn't read.
#[derive(Clone, Copy)]
pub enum TraceStop {
    /// It has more than 2,000 line feeds.
    Limit,
    NoMemory,
}

/// How many line feeds there are; one more than a trace may have stands for all that are more.
#[tactic(auto, using(crate::proofs::TraceLaws::one_feed, crate::proofs::TraceLaws::no_feed, afr_plan_read::proofs::LoopLemmas::shorter))]
fn line_feeds(bytes: &[u8]) -> usize
    ensures some { result ≤ line_feeds bytes.now }
    ensures all { result ≤ 2000 → result ≡ line_feeds bytes.now }
{
    let mut count: usize = 0;
    let mut rest = bytes;
    while let Some((_, more)) = cut(rest) {
        if count > MOST_LINES {
            return count;
        }
        count += 1;
        rest = more;
    }
    count
}

/// What a trace says at a plan, in one pass after its line feeds were counted. Time is linear in the text; each name, key and value is
/// looked for among all of the plan.
#[tactic(auto, using(crate::proofs::TraceLaws::ends, crate::proofs::TraceLaws::one_feed, afr_plan_read::proofs::LoopLemmas::shorter))]
pub fn read_trace<'a>(
    alloc: Global,
    plan: &Plan,
    bytes: &'a [u8],
) -> Result<TraceRead<'a>, TraceStop>
    ensures ok { IfOk result (λ r. record { lines = reverse (map seen_line r.lines.items); broken = r.broken } ≡ trace_told plan.now bytes.now) }
    ensures few { IfOk result (λ r. line_feeds bytes.now ≤ 2000) }
    ensures limit { result ≡ Err TraceStop.Limit → 2000 < line_feeds bytes.now }
{
    if line_feeds(bytes) > MOST_LINES {
        return Err(TraceStop::Limit);
    }
    let mut lines = Vec::new(alloc);
    let mut rest = bytes;
    while let Some((line, more)) = cut(rest) {
        let Some((told, contents)) = read_line(plan, lines.len() as u32, line) else {
            return Ok(TraceRead {
                lines,
                broken: true,
            });
        };
        match lines.push(SpelledLine {
            line: told,
            contents,
        }) {
            Ok(()) => {}
            Err(_) => return Err(TraceStop::NoMemory),
        }
        rest = more;
    }
    Ok(TraceRead {
        lines,
        broken: !rest.is_empty(),
    })
}
