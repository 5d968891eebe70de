//! What holds of all works at once: laws for those who prove over many lines.
ghost use Rattle.afr_client.specs.Laws.{AllowedNext, AsksLow, AsksMore, BeginsFresh, BeginsMore, BeginsWithFive, FedIsAnswered, HasFew, KeepsFive, KeepsFiveBegun, NotesBegin, NotesEach, StaysOutside, StaysSound};

use afr_rule::{Candidate, ReadRule};

/// Whatever the bricks have answered so far, the next line is one that the discipline allows; whatever they answer now,
/// that stays so, and the register notes it.
pub fn a_work_stays_sound()
    ensures fresh { BeginsFresh }
    ensures allowed { AllowedNext }
    ensures stays { StaysSound }
    ensures asks_more { AsksMore }
    ensures begins_more { BeginsMore }
    ensures notes { NotesEach }
    ensures notes_begin { NotesBegin }
    ensures few { HasFew }
    ensures outside { StaysOutside }
    ensures low { AsksLow }
{}

/// Each list of a work's register goes on to have five places.
pub fn a_work_keeps_five_places()
    ensures first { BeginsWithFive }
    ensures asked { KeepsFive }
    ensures begun { KeepsFiveBegun }
{}

/// What a work has heard by this rule it has heard whatever rule it was: it reads at good copies.
pub fn a_work_reads_good_copies<G: Fn(&[Candidate]) -> usize>(rule: &ReadRule<G>)
    ensures { FedIsAnswered G.Fn rule.now }
{
    let _ = rule;
}
