//! How many lines a rename has left, and that each line that counts takes one away.

ghost use Rattle.afr_law_pace.specs.Rename.Renames.{RenameBeginsNearer, RenameComesNearer, RenameKeepsEnd, RenameStartsWithin};

use afr_discipline::each_note_stands;

/// Whatever the bricks answer, each line of a rename takes one from the lines that it has left, but for a lock that another
/// holds and an unlock that failed: those of both walks and of both transactions, with the read of a name in each, and its end.
pub fn a_rename_comes_nearer()
    ensures asked { RenameComesNearer }
    ensures begun { RenameBeginsNearer }
    ensures end { RenameKeepsEnd }
    ensures start { RenameStartsWithin }
{
    each_note_stands();
}
