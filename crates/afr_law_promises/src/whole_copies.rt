//! The law of whole copies: with one writer at a time some copy has missed nothing that was acknowledged.

ghost use Rattle.afr_law_promises.specs.Whole.Whole.{ModelExactWhole};

/// Where no attempt's post-op comes between another's looks and its last post-op, each object and kind has a copy that a
/// majority of all bricks holds nothing against, and so a copy in which each cell is current. It asks nothing of faults: in a
/// split-brain, too, a copy that at most a minority accuses is the one to keep. Where attempts overlap there may be none.
pub fn a_copy_is_whole()
    ensures exact { ModelExactWhole }
{}
