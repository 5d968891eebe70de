//! The rules on a line, the lines before it being as they are.
ghost use Rattle.std.specs.Prelude.{◌≡◌, reverse, map, Some, if◌then◌else◌};
ghost use Rattle.std.specs.List.{list_all};
ghost use Rattle.afr_plan.specs.Bytes.{plain};
ghost use Rattle.afr_plan_read.specs.Counts.{IsCounted};
ghost use Rattle.afr_plan_read.specs.FaultPlaces.{ArePlaces};
ghost use Rattle.afr_plan.specs.Judging as judging;
ghost use Rattle.afr_plan_line.specs.Seen.{seen};
ghost use Rattle.afr_plan_read.specs.Broken.{code_of, seen_ok, seen_rule};

use crate::limits::is_beyond;
use crate::order::{FaultPlaces, is_disordered};
use crate::places::{is_over, may_begin};
use crate::totals::{LineCounts, passes_total};
use crate::versions::is_versioned;
use afr_plan_line::{Spoken, is_plain, say_line};

/// The rules that a line may break, the lowest first.
#[derive(Clone, Copy)]
pub(crate) enum Rule {
    /// Each byte is from a space to a tilde.
    Plain,
    /// A line feed ends each line.
    Ended,
    /// The first four lines have fixed first words.
    Head,
    /// A line's first word may stand there.
    Place,
    Form,
    Limit,
    /// Numbers rise one by one, positions don't fall, and what is named is there.
    Order,
    Total,
    /// `end` is the last line.
    End,
}

impl Rule {
    pub(crate) fn code(self) -> u8
        ensures { result ≡ code_of self }
    {
        match self {
            Rule::Plain => 1,
            Rule::Ended => 2,
            Rule::Head => 3,
            Rule::Place => 4,
            Rule::Form => 5,
            Rule::Limit => 6,
            Rule::Order => 7,
            Rule::Total => 8,
            Rule::End => 9,
        }
    }
}

/// What a line of some form says, or the lowest rule that it breaks by it.
fn formed<'a>(
    before: &[Spoken],
    counts: &LineCounts,
    places: &FaultPlaces,
    spoken: Spoken<'a>,
) -> Result<Spoken<'a>, Rule>
    requires counts { IsCounted (reverse (map seen before.now)) counts.now }
    requires places { ArePlaces (reverse (map seen before.now)) places.now }
    ensures { seen_ok result ≡ judging.formed (reverse (map seen before.now)) (Some (seen spoken.entry)) }
{
    if !is_versioned(before, &spoken) {
        Err(Rule::Form)
    } else if is_beyond(&spoken) {
        Err(Rule::Limit)
    } else if is_disordered(before, counts, places, &spoken) {
        Err(Rule::Order)
    } else if passes_total(before, counts, &spoken) {
        Err(Rule::Total)
    } else {
        Ok(spoken)
    }
}

/// The rule on where a line's first words may stand.
fn place_rule(before: &[Spoken]) -> Rule
    ensures { code_of result ≡ judging.place_code (reverse (map seen before.now)) }
{
    if before.len() < 4 {
        Rule::Head
    } else {
        Rule::Place
    }
}

/// What a line says, or the lowest rule that it breaks.
pub(crate) fn judged<'a>(
    before: &[Spoken],
    counts: &LineCounts,
    places: &FaultPlaces,
    line: &'a [u8],
) -> Result<Spoken<'a>, Rule>
    requires counts { IsCounted (reverse (map seen before.now)) counts.now }
    requires places { ArePlaces (reverse (map seen before.now)) places.now }
    ensures { seen_ok result ≡ judging.judged (reverse (map seen before.now)) line.now }
{
    if !is_plain(line) {
        return Err(Rule::Plain);
    }
    if is_over(before) {
        return Err(Rule::End);
    }
    if !may_begin(before, line) {
        return Err(place_rule(before));
    }
    match say_line(line) {
        None => Err(Rule::Form),
        Some(spoken) => formed(before, counts, places, spoken),
    }
}

/// The rule that a line without its line feed breaks.
fn unended_rule(tail: &[u8]) -> Rule
    ensures { code_of result ≡ if list_all plain tail.now then 2 else 1 }
{
    if is_plain(tail) {
        Rule::Ended
    } else {
        Rule::Plain
    }
}

/// The rule that what follows the last line feed breaks.
pub(crate) fn judged_tail(before: &[Spoken], tail: &[u8]) -> Option<Rule>
    ensures { seen_rule result ≡ judging.judged_tail (reverse (map seen before.now)) tail.now }
{
    if !tail.is_empty() {
        return Some(unended_rule(tail));
    }
    if is_over(before) {
        None
    } else {
        Some(Rule::End)
    }
}
