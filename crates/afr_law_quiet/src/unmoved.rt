//! The law of quiet rounds on moved sources: no heal of a round that nothing disturbs is told that its source moved.

ghost use Rattle.afr_law_quiet.specs.Moves.Moves.{QuietRoundsAreUnmoved};

/// The law, which has no use for a body: where a round's lines stand together, none of them told a fault and no other actor
/// was at work, no heal of the round ended with a source that moved.
pub fn quiet_rounds_are_unmoved()
    ensures unmoved { QuietRoundsAreUnmoved }
{}
