//! What the present work of an actor has asked along its paths, and how many attempts it has begun.
ghost use Rattle.std.specs.Prelude.{◌≡◌, ◌↔◌, ◌+◌, ◌<◌, ◌≤◌, ◌&&◌, ◌==◌, ◌^◌, ◌∷◌, ℕ, [], Some, true, length, reverse, slice_get, take, if◌then◌else◌};
ghost use Rattle.afr_lines.specs.Work.{work};
ghost use Rattle.afr_model.specs.Parts.{names_asked};
ghost use Rattle.afr_model.specs.Showing.{begins_attempt};
ghost use Rattle.afr_model.specs.Standing.{asks_name};
ghost use Rattle.afr_plan.specs.declared.plan.Plan.{Plan};
ghost use Rattle.afr_trace_follow.specs.Asked.{AsksThere, IsAsked, IsFewAsked, asks_in, dir_in, dir_next, given_to, if_given};
ghost use Rattle.afr_trace_tally.specs.Tally.{IsTally};

use crate::parts::work_start;
use crate::stand::begins_attempt;
use afr_base::{ActorId, Gfid, What};
use afr_lines::{Line, Request, Told, is_end, is_of};
use afr_object::Entry;
use afr_plan::Plan;
use afr_trace_tally::Tally;

/// How many names a work has asked, where it asked one of them and what it was given for it, and how many attempts it has begun.
#[derive(Clone, Copy)]
pub(crate) struct Asked {
    pub names: usize,
    pub dir: Option<Gfid>,
    pub entry: Option<Entry>,
    pub begun: usize,
}

/// Before any line.
fn none_asked() -> Asked
    ensures at { (p : Plan) (k : ℕ) → IsAsked p k [] result }
    ensures few { (n : ℕ) → IsFewAsked n result }
{
    Asked {
        names: 0,
        dir: None,
        entry: None,
        begun: 0,
    }
}

fn asks_name(line: &Line) -> bool
    ensures { result ≡ asks_name line.now }
{
    match line {
        Line::Ask {
            request: Request::ReadName { .. },
            ..
        } => true,
        _ => false,
    }
}

fn asks_in(line: &Line) -> Option<Gfid>
    ensures { result ≡ asks_in line.now }
{
    match line {
        Line::Ask {
            request: Request::ReadName { gfid, .. },
            ..
        } => Some(*gfid),
        _ => None,
    }
}

fn if_given(told: Told, entry: Option<Entry>) -> Option<Entry>
    ensures { result ≡ if_given told entry }
{
    match told {
        Told::Given => entry,
        _ => None,
    }
}

/// What a line is given that asks a name, by the entry that it showed.
fn given_to(line: &Line, entry: Option<Entry>) -> Option<Entry>
    ensures { result ≡ given_to line.now entry }
{
    match line {
        Line::Ask {
            request: Request::ReadName { .. },
            told,
            ..
        } => if_given(*told, entry),
        _ => None,
    }
}

/// Whether a number is the sum of two.
pub(crate) fn is_sum(number: usize, one: usize, other: usize) -> bool
    ensures { result ≡ (number == one + other) }
{
    one <= number && number - one == other
}

/// Whether a line asks the name with this number, counted from 1.
fn asks_nth(line: &Line, names: usize, one: usize, other: usize) -> bool
    requires { names < 2 ^ 62 }
    ensures { result ≡ (asks_name line.now && (names + 1 == one + other)) }
{
    asks_name(line) && is_sum(names + 1, one, other)
}

fn names_after(line: &Line, was: usize) -> usize
    requires { was < 2 ^ 62 }
    ensures { result ≡ (if asks_name line.now then was + 1 else was) }
{
    if asks_name(line) { was + 1 } else { was }
}

fn begun_after(line: &Line, was: usize) -> usize
    requires { was < 2 ^ 62 }
    ensures { result ≡ (if begins_attempt line.now then was + 1 else was) }
{
    if begins_attempt(line) { was + 1 } else { was }
}

fn dir_after(line: &Line, here: bool, was: Option<Gfid>) -> Option<Gfid>
    ensures { result ≡ (if here then asks_in line.now else was) }
{
    if here { asks_in(line) } else { was }
}

fn entry_after(line: &Line, here: bool, entry: Option<Entry>, was: Option<Entry>) -> Option<Entry>
    ensures { result ≡ (if here then given_to line.now entry else was) }
{
    if here { given_to(line, entry) } else { was }
}

/// One more line of the work, by the entry that it showed.
fn asked_after(line: &Line, entry: Option<Entry>, one: usize, other: usize, was: Asked) -> Asked
    requires names { was.names < 2 ^ 62 }
    requires begun { was.begun < 2 ^ 62 }
    ensures names { result.names ≡ (if asks_name line.now then was.names + 1 else was.names) }
    ensures dir { result.dir ≡ (if asks_name line.now && (was.names + 1 == one + other) then asks_in line.now else was.dir) }
    ensures entry { result.entry ≡ (if asks_name line.now && (was.names + 1 == one + other) then given_to line.now entry else was.entry) }
    ensures begun { result.begun ≡ (if begins_attempt line.now then was.begun + 1 else was.begun) }
{
    let here = asks_nth(line, was.names, one, other);
    Asked {
        names: names_after(line, was.names),
        dir: dir_after(line, here, was.dir),
        entry: entry_after(line, here, entry, was.entry),
        begun: begun_after(line, was.begun),
    }
}

/// One more line of the log.
fn asked_more(
    tally: &Tally,
    plan: &Plan,
    log: &[Line],
    a: ActorId,
    one: usize,
    other: usize,
    line: &Line,
    position: usize,
    was: Asked,
) -> Asked
    requires tally { IsTally plan.now (reverse log.now) tally.now }
    requires few { length log.now < 2147483648 }
    requires within { position < length log.now }
    requires here { slice_get log.now position ≡ Some line.now }
    requires asked { IsFewAsked position was }
    ensures at { IsAsked plan.now (one + other) (work a.0 (reverse (take position log.now))) was → IsAsked plan.now (one + other) (work a.0 (line.now ∷ reverse (take position log.now))) result }
    ensures few { IsFewAsked (position + 1) result }
{
    if !is_of(a, line) {
        return was;
    }
    if is_end(line) {
        return none_asked();
    }
    let entry = tally.entry_shown(plan, log, position as u32);
    asked_after(line, entry, one, other, was)
}

/// What the present work has asked, with the name whose number is the sum of two, counted from 1.
pub(crate) fn asked_past(
    tally: &Tally,
    plan: &Plan,
    log: &[Line],
    a: ActorId,
    one: usize,
    other: usize,
) -> Asked
    requires tally { IsTally plan.now (reverse log.now) tally.now }
    requires few { length log.now < 2147483648 }
    ensures { IsAsked plan.now (one + other) (work a.0 (reverse log.now)) result }
{
    let start = work_start(log, a);
    let mut asked = none_asked();
    for position in start..log.len() {
        asked = asked_more(
            tally,
            plan,
            log,
            a,
            one,
            other,
            &log[position],
            position,
            asked,
        );
    }
    asked
}

/// The same of the name with this number.
pub(crate) fn asked_at(tally: &Tally, plan: &Plan, log: &[Line], a: ActorId, k: usize) -> Asked
    requires tally { IsTally plan.now (reverse log.now) tally.now }
    requires few { length log.now < 2147483648 }
    ensures { IsAsked plan.now k (work a.0 (reverse log.now)) result }
{
    asked_past(tally, plan, log, a, k, 0)
}

// ---- where a name is asked

fn dir_at(entry: Entry) -> Option<Gfid>
    ensures { result ≡ dir_in (Some entry) }
{
    match entry.what {
        What::Dir => Some(entry.gfid),
        What::File => None,
    }
}

/// The directory that an entry is.
fn dir_in(entry: Option<Entry>) -> Option<Gfid>
    ensures { result ≡ dir_in entry }
{
    match entry {
        Some(entry) => dir_at(entry),
        None => None,
    }
}

/// Where the next name of a path is asked.
pub(crate) fn dir_next(
    tally: &Tally,
    plan: &Plan,
    log: &[Line],
    a: ActorId,
    names: usize,
) -> Option<Gfid>
    requires tally { IsTally plan.now (reverse log.now) tally.now }
    requires few { length log.now < 2147483648 }
    requires names { names ≡ names_asked (work a.0 (reverse log.now)) }
    ensures { result ≡ dir_next plan.now (work a.0 (reverse log.now)) }
{
    if names == 0 {
        Some(Gfid(1))
    } else {
        dir_in(asked_at(tally, plan, log, a, names).entry)
    }
}

pub(crate) fn is_dir(due: Option<Gfid>, g: Gfid) -> bool
    ensures { (result ≡ true) ↔ (due ≡ Some g) }
{
    match due {
        Some(dir) => dir == g,
        None => false,
    }
}

/// Whether a line that asks a name asks it in a directory: the root, or the one that the name before it gave.
pub(crate) fn asks_there(tally: &Tally, plan: &Plan, log: &[Line], a: ActorId, line: &Line) -> bool
    requires tally { IsTally plan.now (reverse log.now) tally.now }
    requires few { length log.now < 2147483648 }
    ensures { (result ≡ true) ↔ AsksThere plan.now line.now (work a.0 (reverse log.now)) }
{
    match asks_in(line) {
        Some(g) => {
            let names = asked_at(tally, plan, log, a, 0).names;
            is_dir(dir_next(tally, plan, log, a, names), g)
        }
        None => true,
    }
}
