//! The lists that the healers' present rounds were given, kept up to date one line more at a time.
ghost use Rattle.std.specs.Prelude.{◌≡◌, ◌+◌, ◌-◌, ◌<◌, ◌≤◌, ◌∷◌, ℕ, Bool, [], List, IfOk, OnOk, length, reverse};
ghost use Rattle.afr_base.specs.declared.ids.ActorId.{ActorId};
ghost use Rattle.afr_lines.specs.Work.{work};
ghost use Rattle.afr_lines.specs.declared.line.Line.{Line};
ghost use Rattle.afr_plan.specs.declared.plan.Plan.{Plan};
ghost use Rattle.afr_trace_follow.specs.Lists.{AreGiven, AreLists, IsGivenTo, index_given};
ghost use Rattle.afr_trace_follow.specs.Marked.{list_of, marked_on};
ghost use Rattle.afr_trace_tally.specs.Tally.{AsksKnown, IsTally};

use crate::marked::marked_on;
use afr_base::{ActorId, BrickId, Gfid, NoMemory, What};
use afr_lines::{Line, Request, Told, is_end, is_of};
use afr_object::{IndexList, List};
use afr_plan::Plan;
use afr_trace_tally::Tally;
use std::alloc::Global;

/// The list of each healer's present round.
#[derive(Drop)]
pub struct Lists {
    pub(crate) given: Vec<IndexList>,
}

fn new_given(alloc: Global) -> Result<Vec<IndexList>, NoMemory>
    ensures { IfOk result (λ given. (p : Plan) → AreGiven p [] given.items) }
{
    let mut given = Vec::new(alloc);
    for i in 0..3 {
        let _i: u8 = i;
        let list = List::new(alloc);
        given.push(list)?;
    }
    Ok(given)
}

fn brick_if_given(told: Told, brick: BrickId) -> Option<BrickId>
    ensures { (a : ActorId) (took : Bool) → result ≡ index_given (Line.Ask a brick Request.Index told took) }
{
    match told {
        Told::Given => Some(brick),
        _ => None,
    }
}

fn index_asked(brick: BrickId, request: &Request, told: Told) -> Option<BrickId>
    ensures { (a : ActorId) (took : Bool) → result ≡ index_given (Line.Ask a brick request.now told took) }
{
    match request {
        Request::Index => brick_if_given(told, brick),
        _ => None,
    }
}

/// The brick whose index a line gave.
fn index_given(line: &Line) -> Option<BrickId>
    ensures { result ≡ index_given line.now }
{
    match line {
        Line::Ask {
            brick,
            request,
            told,
            ..
        } => index_asked(*brick, request, *told),
        Line::Begin { .. } => None,
        Line::HealBegin { .. } => None,
        Line::End { .. } => None,
        Line::HealEnd { .. } => None,
        Line::Event { .. } => None,
    }
}

fn give_index(
    list: &mut IndexList,
    alloc: Global,
    tally: &Tally,
    plan: &Plan,
    older: &[Line],
    b: BrickId,
) -> Result<(), NoMemory>
    requires tally { IsTally plan.now (reverse older.now) tally.now }
    requires few { length older.now < 2147483648 }
    requires brick { b.0 < 5 }
    ensures ok { OnOk result (list.new ≡ marked_on plan.now (reverse older.now) b.0) }
{
    *list = marked_on(alloc, tally, plan, older, b)?;
    Ok(())
}

/// The list of a healer's present round after one more line: its End line begins a round anew, and the answer to its question for an
/// index is its list.
fn give(
    list: &mut IndexList,
    alloc: Global,
    tally: &Tally,
    plan: &Plan,
    i: usize,
    line: &Line,
    older: &[Line],
) -> Result<(), NoMemory>
    requires tally { IsTally plan.now (reverse older.now) tally.now }
    requires few { length older.now < 2147483648 }
    requires was { IsGivenTo plan.now (reverse older.now) i list.old }
    requires known { AsksKnown line.now }
    requires healer { i < 3 }
    ensures ok { OnOk result (IsGivenTo plan.now (line.now ∷ reverse older.now) i list.new) }
{
    if !is_of(ActorId(17 + i as u16), line) {
        return Ok(());
    }
    if is_end(line) {
        *list = List::new(alloc);
        return Ok(());
    }
    match index_given(line) {
        Some(b) => give_index(list, alloc, tally, plan, older, b),
        None => Ok(()),
    }
}

fn give_all(
    given: &mut Vec<IndexList>,
    alloc: Global,
    tally: &Tally,
    plan: &Plan,
    line: &Line,
    older: &[Line],
) -> Result<(), NoMemory>
    requires tally { IsTally plan.now (reverse older.now) tally.now }
    requires few { length older.now < 2147483648 }
    requires was { AreGiven plan.now (reverse older.now) given.old.items }
    requires known { AsksKnown line.now }
    ensures ok { OnOk result (AreGiven plan.now (line.now ∷ reverse older.now) given.new.items) }
{
    for i in 0..given.len() {
        give(&mut given[i], alloc, tally, plan, i, line, older)?;
    }
    Ok(())
}

impl Lists {
    /// Before the first line.
    pub fn new(alloc: Global) -> Result<Lists, NoMemory>
        ensures { IfOk result (λ lists. (p : Plan) → AreLists p [] lists) }
    {
        let given = new_given(alloc)?;
        Ok(Lists { given })
    }

    /// After one more line, by the tally of the lines before it. An Index line takes as many steps as the log has lines, and O(log n)
    /// for each that may have raised a number, on n objects. What was kept before is given up where it stops.
    pub fn add(
        &mut self,
        alloc: Global,
        tally: &Tally,
        plan: &Plan,
        older: &[Line],
        line: &Line,
    ) -> Result<(), NoMemory>
        requires was { AreLists plan.now (reverse older.now) self.old }
        requires tally { IsTally plan.now (reverse older.now) tally.now }
        requires known { AsksKnown line.now }
        requires few { length older.now < 2147483648 }
        ensures ok { OnOk result (AreLists plan.now (line.now ∷ reverse older.now) self.new) }
    {
        give_all(&mut self.given, alloc, tally, plan, line, older)
    }

    /// The list of a healer's present round.
    pub(crate) fn list(&self, plan: &Plan, log: &[Line], a: ActorId) -> &[(Gfid, What)]
        requires lists { AreLists plan.now (reverse log.now) self.now }
        requires healer { 17 ≤ a.0 }
        requires known { a.0 < 20 }
        ensures { result.now ≡ list_of plan.now (work a.0 (reverse log.now)) }
    {
        let _plan = plan;
        let _log = log;
        let list = &self.given[a.0 as usize - 17];
        list.as_slice()
    }
}
