//! The law of quiet rounds, as far as copies go: what a heal of an undisturbed round settled is repaired at the round's end.

ghost use Rattle.afr_law_quiet.specs.Copies.Repaired.{QuietRoundsAreRepaired};

/// Where a heal of a round that nothing disturbed answered Settled, and every brick had the object when it began, all
/// numbers of the object and kind are 0 at the round's end, and all copies that keep the kind are equal.
pub fn quiet_rounds_are_repaired()
    ensures kept { QuietRoundsAreRepaired }
{}
