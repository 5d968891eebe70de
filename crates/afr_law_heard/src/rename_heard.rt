//! What a client hears of a rename, where answers are honest, moves are lawful, and the log is its plan's.

ghost use Rattle.afr_law_heard.specs.Rename.RenameHears.{RenameBrings, RenameHears, RenameMakesKnown};

use afr_law_names::{a_found_file_may_be_linked, entries_are_numbered};

/// A client hears what its rename asks of the bricks' answers. What goes with its requests is what the log gives them, and what
/// it gives one more name is known.
pub fn a_client_hears_of_its_renames()
    ensures hears { RenameHears }
    ensures loads { RenameBrings }
    ensures begins { RenameMakesKnown }
{
    entries_are_numbered();
    a_found_file_may_be_linked();
}
