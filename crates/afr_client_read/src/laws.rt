//! What holds of all reads at once: laws for those who prove over many lines.
ghost use Rattle.afr_client_read.specs.Laws.{AllowedNext, FedIsAnswered, NotesEach, StaysSound};

use afr_rule::{Candidate, ReadRule};

/// Whatever the bricks have answered so far, the next line is one that the discipline allows; whatever they answer now,
/// that stays so, and the register notes it.
pub fn a_lookup_keeps_the_discipline()
    ensures allowed { AllowedNext }
    ensures stays { StaysSound }
    ensures notes { NotesEach }
{}

/// What a read has heard by this rule it has heard whatever rule it was: it reads at a good copy.
pub fn a_picked_copy_is_good<G: Fn(&[Candidate]) -> usize>(rule: &ReadRule<G>)
    ensures { FedIsAnswered G.Fn rule.now }
{
    let _ = rule;
}
