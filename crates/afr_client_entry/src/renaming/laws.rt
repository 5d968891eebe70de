//! What holds of all renames at once: laws for those who prove over many lines.
ghost use Rattle.afr_client_entry.specs.Renames.Laws.{AllowedNext, FedIsAnswered, NotesBegin, NotesEach, StaysSound};

use afr_rule::{Candidate, ReadRule};

/// Whatever the bricks have answered so far, the next line is one that the discipline allows; whatever they answer now,
/// that stays so, and the register notes it.
pub fn a_rename_keeps_the_discipline()
    ensures allowed { AllowedNext }
    ensures stays { StaysSound }
    ensures notes { NotesEach }
    ensures begins { NotesBegin }
{}

/// What a rename has heard by this rule it has heard whatever rule it was: it reads at good copies.
pub fn a_rename_reads_good_copies<G: Fn(&[Candidate]) -> usize>(rule: &ReadRule<G>)
    ensures { FedIsAnswered G.Fn rule.now }
{
    let _ = rule;
}
