//! An index lists at most as many objects as there ever can be.

ghost use Rattle.afr_law_cost.specs.Index.Indexes.{AskedIndexesAreShort, IndexesAreShort, NextIndexIsShort};

/// In an honest and lawful log of a plan the index of a brick lists at most the root, the opening files, and one object for each
/// create and mkdir of the scripts: whenever and wherever its table stood (`tables`), in the answer to each line that asks for it
/// (`lines`), and in that to the next one (`next`). So a healer's round is bounded by the plan alone.
pub fn indexes_are_short()
    ensures tables { IndexesAreShort }
    ensures lines { AskedIndexesAreShort }
    ensures next { NextIndexIsShort }
{}
