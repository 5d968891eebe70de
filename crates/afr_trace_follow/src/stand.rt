//! Where a part of an actor's work stands: on its path, at the object of a command, with or without an attempt.
ghost use Rattle.std.specs.Prelude.{◌≡◌, ◌+◌, ◌<◌, ◌≤◌, ◌||◌, ◌&&◌, ◌++◌, ℕ, [], Some, length, nat_le, reverse, slice_get, take};
ghost use Rattle.afr_lines.specs.Work.{Work, is_of, work};
ghost use Rattle.afr_model.specs.Showing.{begins_attempt};
ghost use Rattle.afr_model.specs.Standing.{kept_at};
ghost use Rattle.afr_trace_follow.specs.Parts.{line_from, lines_from};
ghost use Rattle.afr_trace_follow.specs.Seen.{path_seen};
ghost use Rattle.afr_trace_follow.specs.Stands.{IsAt, IsFew, path_shown};
ghost use Rattle.afr_trace_tally.specs.Tally.{IsTally};
ghost use Rattle.afr_plan.specs.declared.plan.Plan.{Plan};

use crate::facts::either;
use crate::parts::work_start;
use crate::path::{Path, at_root, kept_at, path_shown};
use afr_base::ActorId;
use afr_lines::{Line, is_of};
use afr_object::Entry;
use afr_plan::Plan;
use afr_trace_tally::Tally;

/// Where lines stand on their path, after all names that they read and after the first of them, and whether they have begun an attempt.
#[derive(Clone, Copy)]
pub(crate) struct Stand {
    pub path: Path,
    pub place: Path,
    pub begun: bool,
}

/// Before any line.
pub(crate) fn at_start() -> Stand
    ensures at { (p : Plan) (k : ℕ) → IsAt p k [] result }
    ensures few { IsFew 0 result }
{
    Stand {
        path: at_root(),
        place: at_root(),
        begun: false,
    }
}

pub(crate) fn begins_attempt(line: &Line) -> bool
    ensures { result ≡ begins_attempt line.now }
{
    match line {
        Line::Begin { .. } => true,
        _ => false,
    }
}

/// One more line, by the entry that it showed.
fn stand_after(line: &Line, entry: Option<Entry>, names: usize, was: Stand) -> Stand
    requires { IsFew 4611686018427387903 was }
    ensures path { path_seen result.path ≡ path_shown line.now entry (path_seen was.path) }
    ensures place { path_seen result.place ≡ kept_at names (path_seen was.place) (path_shown line.now entry (path_seen was.place)) }
    ensures begun { result.begun ≡ (begins_attempt line.now || was.begun) }
    ensures few { (n : ℕ) → IsFew n was → IsFew (n + 1) result }
{
    let next = path_shown(line, entry, was.place);
    Stand {
        path: path_shown(line, entry, was.path),
        place: kept_at(names, was.place, next),
        begun: either(begins_attempt(line), was.begun),
    }
}

fn is_from(a: ActorId, from: usize, line: &Line, position: usize) -> bool
    ensures { result ≡ (is_of a.0 line.now && nat_le from position) }
{
    is_of(a, line) && from <= position
}

/// The line at a position is one more, where it is the actor's and not before the first position.
fn stand_more(
    tally: &Tally,
    plan: &Plan,
    log: &[Line],
    a: ActorId,
    from: usize,
    names: usize,
    line: &Line,
    position: usize,
    was: Stand,
) -> Stand
    requires tally { IsTally plan.now (reverse log.now) tally.now }
    requires few { length log.now < 2147483648 }
    requires within { position < length log.now }
    requires here { slice_get log.now position ≡ Some line.now }
    requires names { IsFew 4611686018427387903 was }
    ensures at { (w : Work) → IsAt plan.now names w was → IsAt plan.now names (line_from a.0 from line.now (reverse (take position log.now)) w) result }
    ensures few { (n : ℕ) → IsFew n was → IsFew (n + 1) result }
{
    if is_from(a, from, line, position) {
        let entry = tally.entry_shown(plan, log, position as u32);
        stand_after(line, entry, names, was)
    } else {
        was
    }
}

/// Where lines stand with those of the actor between two positions.
pub(crate) fn stand_on(
    tally: &Tally,
    plan: &Plan,
    log: &[Line],
    a: ActorId,
    from: usize,
    upto: usize,
    names: usize,
    start: Stand,
) -> Stand
    requires tally { IsTally plan.now (reverse log.now) tally.now }
    requires few { length log.now < 2147483648 }
    requires within { upto ≤ length log.now }
    requires names { IsFew 2147483648 start }
    ensures at { (w : Work) → IsAt plan.now names w start → IsAt plan.now names (lines_from a.0 from (reverse (take upto log.now)) ++ w) result }
    ensures few { (n : ℕ) → IsFew n start → IsFew (n + upto) result }
{
    let first = from.min(upto);
    let mut stand = start;
    for position in first..upto {
        stand = stand_more(
            tally,
            plan,
            log,
            a,
            from,
            names,
            &log[position],
            position,
            stand,
        );
    }
    stand
}

/// Where the present work of an actor stands after so many lines.
pub(crate) fn stand_of(
    tally: &Tally,
    plan: &Plan,
    log: &[Line],
    a: ActorId,
    upto: usize,
    names: usize,
) -> Stand
    requires tally { IsTally plan.now (reverse log.now) tally.now }
    requires few { length log.now < 2147483648 }
    requires within { upto ≤ length log.now }
    ensures at { IsAt plan.now names (work a.0 (reverse (take upto log.now))) result }
    ensures few { IsFew upto result }
{
    let from = work_start(&log[..upto], a);
    stand_on(tally, plan, log, a, from, upto, names, at_start())
}
