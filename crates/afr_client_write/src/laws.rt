//! What holds of all writes at once: laws for those who prove over many lines.
ghost use Rattle.afr_client_write.specs.Laws.{AllowedNext, FedIsAnswered, NotesBegin, NotesEach, StaysSound};

use afr_rule::{Candidate, ReadRule};

/// Whatever the bricks have answered so far, the next line is one that the discipline allows; whatever they answer now,
/// that stays so, and the register notes it.
pub fn a_write_keeps_the_discipline()
    ensures allowed { AllowedNext }
    ensures stays { StaysSound }
    ensures notes { NotesEach }
    ensures begins { NotesBegin }
{}

/// What a write has heard by this rule it has heard whatever rule it was: its path is read at good copies.
pub fn a_write_reads_good_copies<G: Fn(&[Candidate]) -> usize>(rule: &ReadRule<G>)
    ensures { FedIsAnswered G.Fn rule.now }
{
    let _ = rule;
}
