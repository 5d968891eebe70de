//! The lines of a plan, read one after the other.
ghost use Rattle.std.specs.Prelude.{◌≡◌, ◌==◌, ◌∷◌, [], ℕ, position, reverse, map, IfOk, OnOk, OnErr, Some, Ok, Err, true};
ghost use Rattle.std.specs.Option.{option_map};
ghost use Rattle.afr_plan.specs.Judging.{reading, first_fault, at_line, fitting};
ghost use Rattle.afr_plan_read.specs.FaultPlaces.{IsNewPlace, with_place};
ghost use Rattle.afr_plan.specs.Judging as judging;
ghost use Rattle.afr_plan.specs.Rules.{may_stand};
ghost use Rattle.afr_plan.specs.Said.{Said};
ghost use Rattle.afr_plan_line.specs.Seen.{seen};
ghost use Rattle.afr_plan_read.specs.Broken.{code_of, seen_ok, seen_rule};
ghost use Rattle.afr_plan.specs.TextLines.{cut_of};

use crate::order::FaultPlaces;
use crate::rules::{Rule, judged, judged_tail};
use crate::totals::{LineCounts, counted, no_counts};
use afr_base::NoMemory;
use afr_plan::{PlanFault, PlanStop};
use afr_plan_line::Spoken;
use memchr::memchr;
use std::alloc::Global;
use std::marker::Model;

/// What the lines so far say. Contracts see it with the newest line first.
#[derive(Drop)]
pub(crate) struct Lines<'a> {
    spoken: Vec<Spoken<'a>>,
    counts: LineCounts,
    places: FaultPlaces,
}

impl<'a> Model for Lines<'a> {
    ghost use Rattle.std.specs.Prelude.{List, reverse, map};
    ghost use Rattle.afr_plan.specs.Said.{Said};
    ghost use Rattle.afr_plan_line.specs.Seen.{seen};
    ghost use Rattle.afr_plan_read.specs.Counts.{IsCounted};
    ghost use Rattle.afr_plan_read.specs.FaultPlaces.{ArePlaces};

    ghost Value = { List Said };

    ghost view = { λ l. reverse (map seen l.spoken.items) };

    ghost invariant = { λ l. IsCounted (reverse (map seen l.spoken.items)) l.counts × ArePlaces (reverse (map seen l.spoken.items)) l.places };
}

impl<'a> Lines<'a> {
    fn new(alloc: Global) -> Lines<'a>
        ensures { result ≡ [] }
    {
        Lines {
            spoken: Vec::new(alloc),
            counts: no_counts(),
            places: FaultPlaces::new(alloc),
        }
    }

    /// What the lines say, the oldest first.
    pub(crate) fn spoken(&self) -> &[Spoken<'a>]
        ensures { reverse (map seen result.now) ≡ self.now }
    {
        &self.spoken
    }

    /// What a line says after these, or the lowest rule that it breaks.
    fn judge(&self, line: &'a [u8]) -> Result<Spoken<'a>, Rule>
        ensures { seen_ok result ≡ judging.judged self.now line.now }
    {
        judged(&self.spoken, &self.counts, &self.places, line)
    }

    fn judge_tail(&self, tail: &[u8]) -> Option<Rule>
        ensures { seen_rule result ≡ judging.judged_tail self.now tail.now }
    {
        judged_tail(&self.spoken, tail)
    }

    /// One line more, which breaks no rule.
    fn push(&mut self, spoken: Spoken<'a>) -> Result<(), NoMemory>
        requires place { may_stand self.old (seen spoken) ≡ true }
        requires fits { fitting self.old (seen spoken) ≡ Ok (seen spoken) }
        ensures ok { OnOk result (self.new ≡ seen spoken.entry ∷ self.old) }
    {
        self.spoken.try_reserve(1)?;
        placed(&mut self.places, &spoken)?;
        self.counts = counted(self.counts, &spoken);
        match self.spoken.push(spoken) {
            Ok(()) => Ok(()),
            Err(_) => unreachable!(),
        }
    }

    /// The fault of the line after these. The totals keep its number small.
    fn fault(&self, broken: Rule) -> PlanFault
        ensures { result ≡ at_line self.now (code_of broken) }
    {
        PlanFault {
            line: self.spoken.len() as u32 + 1,
            code: broken.code(),
        }
    }

    /// Takes a line, or refuses it.
    fn take_line(&mut self, line: &'a [u8]) -> Result<(), PlanStop>
        ensures ok { OnOk result ((s : Said) × (judging.judged self.old line.now ≡ Ok s) × (self.new ≡ s ∷ self.old)) }
        ensures refused { (fault : PlanFault) → result ≡ Err (PlanStop.Refused fault)
            → (code : ℕ) × (judging.judged self.old line.now ≡ Err code) × (fault ≡ at_line self.old code) }
    {
        match self.judge(line) {
            Ok(spoken) => match self.push(spoken) {
                Ok(()) => Ok(()),
                Err(_) => Err(PlanStop::NoMemory),
            },
            Err(broken) => Err(PlanStop::Refused(self.fault(broken))),
        }
    }
}

/// The places of the faults with one line more.
fn placed(places: &mut FaultPlaces, spoken: &Spoken) -> Result<(), NoMemory>
    requires new { IsNewPlace (seen spoken.now) places.old }
    ensures ok { OnOk result (places.new ≡ with_place (seen spoken.now) places.old) }
    ensures err { OnErr result (places.new ≡ places.old) }
{
    match spoken {
        Spoken::Faulty {
            brick,
            at,
            fault: _,
        } => places.add(*brick, *at),
        Spoken::Afr(_) => Ok(()),
        Spoken::Volume(_, _) => Ok(()),
        Spoken::Files(_) => Ok(()),
        Spoken::Turns(_) => Ok(()),
        Spoken::Client(_) => Ok(()),
        Spoken::Command { path: _, action: _ } => Ok(()),
        Spoken::Healer(_) => Ok(()),
        Spoken::Round(_) => Ok(()),
        Spoken::At { at: _, event: _ } => Ok(()),
        Spoken::Go { who: _, count: _ } => Ok(()),
        Spoken::End => Ok(()),
    }
}

/// Where the first line feed stands.
fn feed(bytes: &[u8]) -> Option<usize>
    ensures { result ≡ position (λ b. b == 10) bytes.now }
{
    memchr(b'\n', bytes)
}

/// The bytes before the first line feed, and those after it.
pub fn cut(bytes: &[u8]) -> Option<(&[u8], &[u8])>
    ensures { option_map (λ x. (x.0.now, x.1.now)) result ≡ cut_of bytes.now }
{
    let at = feed(bytes)?;
    Some((&bytes[..at], &bytes[at + 1..]))
}

/// What all lines say, up to `end`.
pub(crate) fn read_lines<'a>(alloc: Global, bytes: &'a [u8]) -> Result<Lines<'a>, PlanStop>
    ensures ok { IfOk result (λ lines. reading bytes.now ≡ Ok lines) }
    ensures cause { (fault : PlanFault) → result ≡ Err (PlanStop.Refused fault) → first_fault bytes.now ≡ Some fault }
{
    let mut lines = Lines::new(alloc);
    let mut rest = bytes;
    while let Some((line, more)) = cut(rest) {
        match lines.take_line(line) {
            Ok(()) => {}
            Err(stop) => return Err(stop),
        }
        rest = more;
    }
    match lines.judge_tail(rest) {
        None => Ok(lines),
        Some(broken) => Err(PlanStop::Refused(lines.fault(broken))),
    }
}
