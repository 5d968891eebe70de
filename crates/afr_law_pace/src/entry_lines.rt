//! How many lines a command on a name has left, and that each line that counts takes one away.

ghost use Rattle.afr_law_pace.specs.Entry.Entries.{EntryBeginsNearer, EntryComesNearer, EntryKeepsEnd, EntryStartsWithin};
ghost use Rattle.afr_law_pace.specs.Entry.Removals.{RemovalBeginsNearer, RemovalComesNearer, RemovalKeepsEnd, RemovalStartsWithin};

use afr_discipline::each_note_stands;

/// Whatever the bricks answer, each line of a removal takes one from the lines that it has left, but for a lock that another
/// holds and an unlock that failed; from the locks of the directory on there are seven lines a brick and three more.
pub fn a_removal_comes_nearer()
    ensures asked { RemovalComesNearer }
    ensures begun { RemovalBeginsNearer }
    ensures end { RemovalKeepsEnd }
    ensures start { RemovalStartsWithin }
{}

/// The same of a command on a name: its walk's lines, its transaction's, the read of the name, and a removal's.
pub fn an_entry_comes_nearer()
    ensures asked { EntryComesNearer }
    ensures begun { EntryBeginsNearer }
    ensures end { EntryKeepsEnd }
    ensures start { EntryStartsWithin }
{
    each_note_stands();
}
