//! How many lines a client's work has left.
#![tactic(auto)]

mod entry_lines;
mod rename_lines;
mod work_lines;

ghost use Rattle.afr_law_pace.specs.Laws.{AsksAbove, BeginsNearer, ComesNearer, KeepsEnd, StartsQueued, StartsWithin, StaysQueued};
ghost use Rattle.afr_law_pace.specs.Lookups.{ReadComesNearer, ReadKeepsEnd, ReadStartsWithin};
ghost use Rattle.afr_law_pace.specs.Walks.{WalkComesNearer, WalkStartsWithin};
ghost use Rattle.afr_law_pace.specs.Writes.{WriteBeginsNearer, WriteComesNearer, WriteKeepsEnd, WriteStartsWithin};

pub use entry_lines::{a_removal_comes_nearer, an_entry_comes_nearer};
pub use rename_lines::a_rename_comes_nearer;
pub use work_lines::a_work_comes_nearer;

/// Whatever the bricks answer, each line of a transaction takes one from the lines that it has left, but for a lock that
/// another holds and an unlock that failed; there are six lines a brick and two more at first.
pub fn a_transaction_comes_nearer()
    ensures asked { ComesNearer }
    ensures begun { BeginsNearer }
    ensures end { KeepsEnd }
    ensures start { StartsWithin }
{}

/// A transaction asks for its locks in rising order of bricks, and holds none but of its one area: so each lock is above all
/// that it holds.
pub fn a_transaction_asks_above()
    ensures start { StartsQueued }
    ensures stays { StaysQueued }
    ensures above { AsksAbove }
{}

/// Each line of a walk takes one from the lines that it has left; there are looks and a read for each name at first.
pub fn a_walk_comes_nearer()
    ensures asked { WalkComesNearer }
    ensures start { WalkStartsWithin }
{}

/// The same of a write: its walk's lines and its transaction's.
pub fn a_write_comes_nearer()
    ensures asked { WriteComesNearer }
    ensures begun { WriteBeginsNearer }
    ensures end { WriteKeepsEnd }
    ensures start { WriteStartsWithin }
{}

/// The same of a read: its walk's lines, looks at what it found and one read.
pub fn a_read_comes_nearer()
    ensures asked { ReadComesNearer }
    ensures end { ReadKeepsEnd }
    ensures start { ReadStartsWithin }
{}
