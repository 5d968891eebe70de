//! What holds of removals, for all of them at once: laws for those who prove over many lines.
ghost use Rattle.afr_client_entry.specs.Removals.Laws.{AllowedMoves, BeginsSound, StaysSound};

/// Whatever the bricks have answered so far, the next line is one that the discipline allows, and whatever they answer
/// now, that stays so.
pub fn a_removal_stays_sound()
    ensures moves { AllowedMoves }
    ensures stays { StaysSound }
    ensures begins { BeginsSound }
{}
