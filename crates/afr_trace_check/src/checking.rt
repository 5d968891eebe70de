//! The check of a whole trace, line by line.
ghost use Rattle.std.specs.Prelude.{Err, None, ◌≡◌, ◌↔◌, ◌<◌, ◌≤◌, [], ◌∷◌, IfNone, IfOk, IfSome, OnOk, false, length, map, reverse, if◌then◌else◌};
ghost use Rattle.afr_lines.specs.Log.{EveryPrefix};
ghost use Rattle.afr_trace_build.specs.Built.{built_on};
ghost use Rattle.afr_trace_build.specs.Filling.{fill};
ghost use Rattle.afr_trace_check.specs.Right.{IsFound, IsFoundIn, IsPastLimit, IsRight};
ghost use Rattle.afr_trace_check.specs.Taken.{BreaksOne, IsOutcome, IsOutcomeOf, IsTaken, KeepsRules, log_of};
ghost use Rattle.afr_trace_follow.specs.Following.{HasFewActors};
ghost use Rattle.afr_trace_follow.specs.Lists.{AreLists};
ghost use Rattle.afr_trace_read.specs.Seen.{seen_line};
ghost use Rattle.afr_trace_read.specs.Trace.{line_feeds};
ghost use Rattle.afr_trace_safe.specs.Touched.{touched};
ghost use Rattle.afr_trace_tally.specs.Limits.{is_past_limit};
ghost use Rattle.afr_trace_tally.specs.Room.{HasRoom};
ghost use Rattle.afr_trace_tally.specs.Tally.{AsksKnown, IsTally};

use crate::blamed::is_blamed;
use crate::filling::filled;
use crate::finding::{CheckStop, Finding, Rule};
use crate::honest::is_honest;
use afr_base::{Gfid, NoMemory};
use afr_lines::Line;
use afr_plan::Plan;
use afr_trace_build::Filled;
use afr_trace_follow::{Lists, is_following};
use afr_trace_read::{SpelledLine, TraceStop, read_trace};
use afr_trace_safe::{is_safe, touched};
use afr_trace_tally::{Tally, TallyStop, is_past_limit};
use std::alloc::Global;

/// The most lines that a trace may have.
const MOST_LINES: usize = 2_000;

/// The lines that were taken, and what is kept beside them.
#[derive(Drop)]
pub(crate) struct Taken {
    pub tally: Tally,
    pub lists: Lists,
    pub log: Vec<Line>,
}

/// What a line breaks of the rules that speak of it alone.
fn broken_by(tally: &Tally, lists: &Lists, plan: &Plan, log: &[Line], line: &Line) -> Option<Rule>
    requires tally { IsTally plan.now (reverse log.now) tally.now }
    requires lists { AreLists plan.now (reverse log.now) lists.now }
    requires shape { plan.now.shape.n ≤ 5 }
    requires actors { HasFewActors plan.now }
    requires known { AsksKnown line.now }
    requires few { length log.now < 2147483648 }
    ensures none { IfNone result (KeepsRules plan.now line.now (reverse log.now)) }
    ensures some { IfSome result (λ broken. BreaksOne plan.now line.now (reverse log.now) broken) }
{
    if !is_following(tally, plan, log, lists, line) {
        return Some(Rule::Follows);
    }
    if !is_honest(tally, plan, log, line) {
        return Some(Rule::Honest);
    }
    if !is_blamed(plan, log, line) {
        return Some(Rule::Blamed);
    }
    None
}

/// One more line in the tally. The files have room for it.
fn add_to_tally(
    tally: &mut Tally,
    alloc: Global,
    plan: &Plan,
    log: &[Line],
    line: &Line,
) -> Result<(), NoMemory>
    requires was { IsTally plan.now (reverse log.now) tally.old }
    requires known { AsksKnown line.now }
    requires few { length log.now < 2147483648 }
    requires room { HasRoom plan.now line.now (reverse log.now) }
    ensures { OnOk result (IsTally plan.now (line.now ∷ reverse log.now) tally.new) }
{
    match tally.add(alloc, plan, log, line) {
        Ok(()) => Ok(()),
        Err(TallyStop::NoMemory) => Err(NoMemory),
        Err(TallyStop::TooLong) => unreachable!(),
    }
}

/// One more line in what is kept, and the objects that it touches.
fn add(
    tally: &mut Tally,
    lists: &mut Lists,
    alloc: Global,
    plan: &Plan,
    log: &[Line],
    line: &Line,
) -> Result<Vec<Gfid>, NoMemory>
    requires tally { IsTally plan.now (reverse log.now) tally.old }
    requires lists { AreLists plan.now (reverse log.now) lists.old }
    requires known { AsksKnown line.now }
    requires few { length log.now < 2147483648 }
    requires room { HasRoom plan.now line.now (reverse log.now) }
    ensures tally { OnOk result (IsTally plan.now (line.now ∷ reverse log.now) tally.new) }
    ensures lists { OnOk result (AreLists plan.now (line.now ∷ reverse log.now) lists.new) }
    ensures objects { IfOk result (λ objects. objects.items ≡ touched plan.now line.now (reverse log.now)) }
{
    let objects = touched(alloc, tally, plan, log, line)?;
    lists.add(alloc, tally, plan, log, line)?;
    add_to_tally(tally, alloc, plan, log, line)?;
    Ok(objects)
}

/// Judges a line, and takes it where it breaks no rule that speaks of it alone.
fn take(
    taken: &mut Taken,
    alloc: Global,
    first: &Tally,
    plan: &Plan,
    line: Line,
) -> Result<Option<Rule>, NoMemory>
    requires was { IsTaken plan.now taken.old }
    requires right { EveryPrefix (IsRight plan.now) (log_of taken.old) }
    requires first { IsTally plan.now [] first.now }
    requires shape { plan.now.shape.n ≤ 5 }
    requires actors { HasFewActors plan.now }
    requires known { AsksKnown line }
    requires few { length taken.old.log.items < 2147483647 }
    requires room { HasRoom plan.now line (log_of taken.old) }
    ensures taken { IfOk result (λ outcome. outcome ≡ None → IsTaken plan.now taken.new) }
    ensures outcome { IfOk result (λ outcome. IsOutcome plan.now line (log_of taken.old) (log_of taken.new) outcome) }
{
    let broken = broken_by(
        &taken.tally,
        &taken.lists,
        plan,
        taken.log.as_slice(),
        &line,
    );
    if let Some(rule) = broken {
        return Ok(Some(rule));
    }
    let objects = add(
        &mut taken.tally,
        &mut taken.lists,
        alloc,
        plan,
        taken.log.as_slice(),
        &line,
    )?;
    taken.log.push(line)?;
    let safe = is_safe(
        alloc,
        first,
        &taken.tally,
        plan,
        taken.log.as_slice(),
        objects.as_slice(),
    )?;
    if !safe {
        return Ok(Some(Rule::Safe));
    }
    Ok(None)
}

/// Judges what a text stands for.
fn next(
    taken: &mut Taken,
    alloc: Global,
    first: &Tally,
    plan: &Plan,
    spelled: &SpelledLine<'_>,
) -> Result<Option<Rule>, NoMemory>
    requires was { IsTaken plan.now taken.old }
    requires right { EveryPrefix (IsRight plan.now) (log_of taken.old) }
    requires first { IsTally plan.now [] first.now }
    requires shape { plan.now.shape.n ≤ 5 }
    requires actors { HasFewActors plan.now }
    requires short { is_past_limit plan.now ≡ false }
    requires few { length taken.old.log.items < 2147483647 }
    ensures taken { IfOk result (λ outcome. outcome ≡ None → IsTaken plan.now taken.new) }
    ensures outcome { IfOk result (λ outcome. IsOutcomeOf plan.now (log_of taken.old) (log_of taken.new) (fill plan.now (log_of taken.old) (seen_line spelled.now)) outcome) }
{
    let line = filled(
        alloc,
        &taken.tally,
        plan,
        taken.log.as_slice(),
        &spelled.line,
        spelled.contents,
    )?;
    match line {
        Filled::Stands(line) => take(taken, alloc, first, plan, line),
        Filled::NoLine => Ok(Some(Rule::Text)),
        Filled::OtherWords => Ok(Some(Rule::Follows)),
    }
}

/// What is found where the lines of a trace end.
fn at_end(broken: bool, lines: u32) -> Finding
    ensures { result ≡ (if broken then Finding.No lines Rule.Text else Finding.Yes lines) }
{
    if broken {
        Finding::No {
            line: lines,
            rule: Rule::Text,
        }
    } else {
        Finding::Yes(lines)
    }
}

fn new_taken(alloc: Global, plan: &Plan) -> Result<Taken, NoMemory>
    requires { plan.now.shape.n ≤ 5 }
    ensures taken { IfOk result (λ t. IsTaken plan.now t) }
    ensures none { IfOk result (λ t. t.log.items ≡ []) }
{
    let tally = Tally::new(alloc, plan)?;
    let lists = Lists::new(alloc)?;
    Ok(Taken {
        tally,
        lists,
        log: Vec::new(alloc),
    })
}

fn check_lines(
    alloc: Global,
    plan: &Plan,
    lines: &[SpelledLine<'_>],
    broken: bool,
) -> Result<Finding, NoMemory>
    requires shape { plan.now.shape.n ≤ 5 }
    requires actors { HasFewActors plan.now }
    requires short { is_past_limit plan.now ≡ false }
    requires few { length lines.now < 2147483647 }
    ensures { IfOk result (λ found. IsFoundIn plan.now (built_on plan.now broken (map seen_line lines.now) []) found) }
{
    let first = Tally::new(alloc, plan)?;
    let mut taken = new_taken(alloc, plan)?;
    for i in 0..lines.len() {
        let outcome = next(&mut taken, alloc, &first, plan, &lines[i])?;
        if let Some(rule) = outcome {
            return Ok(Finding::No {
                line: i as u32,
                rule,
            });
        }
    }
    Ok(at_end(broken, lines.len() as u32))
}

fn line_feeds(text: &[u8]) -> usize
    ensures { result ≡ line_feeds text.now }
{
    let mut count: usize = 0;
    for byte in text {
        if *byte == b'\n' {
            count += 1;
        }
    }
    count
}

/// What is found of the trace behind a plan: how many lines it has, where each keeps every rule, or the first that breaks one, and the
/// first rule that it breaks. Each line takes as many steps as there are lines before it, and some for the cells of what it touches.
pub fn check(alloc: Global, plan: &Plan, text: &[u8]) -> Result<Finding, CheckStop>
    requires shape { plan.now.shape.n ≤ 5 }
    requires actors { HasFewActors plan.now }
    ensures ok { IfOk result (λ found. IsFound plan.now text.now found) }
    ensures limit { (result ≡ Err CheckStop.Limit) ↔ IsPastLimit plan.now text.now }
{
    if is_past_limit(plan) {
        return Err(CheckStop::Limit);
    }
    if line_feeds(text) > MOST_LINES {
        return Err(CheckStop::Limit);
    }
    let trace = match read_trace(alloc, plan, text) {
        Ok(trace) => trace,
        Err(TraceStop::Limit) => return Err(CheckStop::Limit),
        Err(TraceStop::NoMemory) => return Err(CheckStop::NoMemory),
    };
    let found = check_lines(alloc, plan, trace.lines.as_slice(), trace.broken)?;
    Ok(found)
}
