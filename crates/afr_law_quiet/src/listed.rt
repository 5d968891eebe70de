//! What a quiet round lists and tells: the list is what is open on its brick, each object in it gets its two heals, and each heal tells what stood when it began.

ghost use Rattle.afr_law_quiet.specs.Lists.Listed.{QuietRoundsAreListed};

/// A round that nothing disturbed lists exactly the objects that have a number above 0 on its brick, and each gets its two
/// heals. Each of them begins, and answers that nothing was to be healed exactly where all numbers of the kind were 0 when
/// it began, that there is a split-brain exactly where all bricks showed one then, and else that it settled or that its
/// source moved.
pub fn quiet_rounds_are_listed()
    ensures law { QuietRoundsAreListed }
{}
