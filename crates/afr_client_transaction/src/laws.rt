//! What holds of all transactions at once: a law for those who prove over many lines.
ghost use Rattle.afr_client_transaction.specs.Laws.{AcknowledgedExactly, AllowedMoves, AllowedNext, StaysSound};

/// Whatever the bricks have answered so far, the next line is one that the discipline allows, and whatever they answer
/// now, that stays so.
pub fn a_transaction_stays_sound()
    ensures allowed { AllowedNext }
    ensures moves { AllowedMoves }
    ensures stays { StaysSound }
    ensures acknowledged { AcknowledgedExactly }
{}
