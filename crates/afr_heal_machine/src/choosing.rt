//! The source of a heal: what the rule picks from the good copies once the first looks are over.
ghost use Rattle.std.specs.Prelude.{◌≡◌, ◌≤◌};
ghost use Rattle.afr_rule.specs.Choosing.{IsPick, IsRule};
ghost use Rattle.afr_heal_machine.specs.Healing.{IsChosen};
ghost use Rattle.afr_heal_machine.specs.Source.{HasSource, IsLowest, candidates_of};

use afr_base::{BrickId, BrickSet, Kind};
use afr_choice::good_shown;
use afr_discipline::{Register, first_candidate};
use afr_rule::{Candidate, Candidates, SourceRule};

/// The copies that the rule chooses from, the lowest first.
fn choices(register: &Register, kind: Kind) -> Candidates
    requires few { register.now.shape.n ≤ 5 }
    requires source { HasSource kind register.now }
    ensures { result ≡ candidates_of register.now }
{
    let sources = good_shown(register.shape, &register.seen, kind);
    let few = sources.common(BrickSet::all(register.shape.n));
    Candidates::of(few, &register.seen)
}

fn picked<F: Fn(&[Candidate]) -> usize>(
    register: &Register,
    kind: Kind,
    rule: &SourceRule<F>,
) -> BrickId
    requires rule { IsRule F.Fn rule.now }
    requires few { register.now.shape.n ≤ 5 }
    requires source { HasSource kind register.now }
    ensures { IsPick F.Fn rule.now (candidates_of register.now) result }
{
    let copies = choices(register, kind);
    rule.pick(copies.as_slice())
}

/// The lowest candidate, of which there is one.
fn lowest(register: &Register, kind: Kind) -> BrickId
    requires few { register.now.shape.n ≤ 5 }
    requires source { HasSource kind register.now }
    ensures { IsLowest register.now result }
{
    first_candidate(register).unwrap_or(BrickId(0))
}

/// The source: for names the lowest good copy, since each is read; else the one that the rule picks.
pub(crate) fn source_found<F: Fn(&[Candidate]) -> usize>(
    register: &Register,
    kind: Kind,
    rule: &SourceRule<F>,
) -> BrickId
    requires rule { IsRule F.Fn rule.now }
    requires few { register.now.shape.n ≤ 5 }
    requires source { HasSource kind register.now }
    ensures { IsChosen F.Fn rule.now kind register.now result }
{
    match kind {
        Kind::Names => lowest(register, kind),
        Kind::Bytes => picked(register, kind, rule),
        Kind::Attrs => picked(register, kind, rule),
    }
}
