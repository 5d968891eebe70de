//! The law of quiet rounds: what a round does that nothing disturbs.

ghost use Rattle.afr_law_quiet.specs.Rounds.Whole.{QuietRoundsAreWhole};

use crate::listed::quiet_rounds_are_listed;
use crate::repaired::quiet_rounds_are_repaired;
use crate::unmoved::quiet_rounds_are_unmoved;

/// A round that nothing disturbed lists exactly the objects that have a number above 0 on its brick, and each gets its two
/// heals. Each heal answers that nothing was to be healed, that it settled, or that there is a split-brain, as it stood when
/// the heal began; and what it settled, where every brick had the object, has no number and equal copies at the round's end.
pub fn quiet_rounds_are_whole()
    ensures whole { QuietRoundsAreWhole }
{
    quiet_rounds_are_listed();
    quiet_rounds_are_unmoved();
    quiet_rounds_are_repaired();
}
