//! Which of the good copies is read: the one that the read rule picks.
ghost use Rattle.std.specs.Prelude.{◌≡◌, ◌<◌, false};
ghost use Rattle.afr_base.specs.Bricks.{is_nothing};
ghost use Rattle.afr_choice.specs.Verdict.{good_copies, verdict_of};
ghost use Rattle.afr_rule.specs.Choosing.{IsPick, IsRule};
ghost use Rattle.afr_client_walk.specs.Choosing.{RuleAnswers, candidates_of, choices, reader_of};

use afr_base::{BrickId, BrickSet, Kind, Shape};
use afr_choice::{Looked, Verdict, good};
use afr_rule::{Candidate, Candidates, ReadRule};

/// The good copy that the rule picks.
pub fn pick<G: Fn(&[Candidate]) -> usize>(
    shape: &Shape,
    looked: &Looked,
    kind: Kind,
    rule: &ReadRule<G>,
) -> BrickId
    requires rule { IsRule G.Fn rule.now }
    requires some { is_nothing (good_copies shape.now looked.now kind) ≡ false }
    ensures picked { IsPick G.Fn rule.now (candidates_of shape.now looked.now kind) result }
    ensures small { result.0 < 5 }
{
    pick_among(good(shape, looked, kind), shape, looked, kind, rule)
}

/// The same, where the good copies are known.
fn pick_among<G: Fn(&[Candidate]) -> usize>(
    sources: BrickSet,
    shape: &Shape,
    looked: &Looked,
    kind: Kind,
    rule: &ReadRule<G>,
) -> BrickId
    requires rule { IsRule G.Fn rule.now }
    requires good { sources ≡ good_copies shape.now looked.now kind }
    requires some { is_nothing (good_copies shape.now looked.now kind) ≡ false }
    ensures picked { IsPick G.Fn rule.now (candidates_of shape.now looked.now kind) result }
    ensures small { result.0 < 5 }
{
    let copies = Candidates::of(sources, looked);
    rule.pick(copies.as_slice())
}

/// The same where the verdict has sources. Where it has none, the rule isn't asked.
pub fn pick_if<G: Fn(&[Candidate]) -> usize>(
    verdict: &Verdict,
    shape: &Shape,
    looked: &Looked,
    kind: Kind,
    rule: &ReadRule<G>,
) -> Option<BrickId>
    requires rule { IsRule G.Fn rule.now }
    requires judged { verdict.now ≡ verdict_of shape.now looked.now kind }
    ensures picked { RuleAnswers G.Fn rule.now (choices shape.now looked.now kind) result }
    ensures small { (reader_of result).0 < 5 }
{
    match verdict {
        Verdict::Sources(sources) => Some(pick_among(*sources, shape, looked, kind, rule)),
        _ => None,
    }
}

/// The brick that was picked.
pub fn reader_of(picked: Option<BrickId>) -> BrickId
    ensures { result ≡ reader_of picked }
{
    match picked {
        Some(brick) => brick,
        None => BrickId(0),
    }
}
