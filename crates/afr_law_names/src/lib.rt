//! What names lead to: which objects, that these are there, and that a way leads down.
#![tactic(auto)]

mod descending;
mod file_links;
mod named_copies;

ghost use Rattle.afr_law_names.specs.Apart.{FilesElsewhere, OnlyDirectoriesHaveNames};
ghost use Rattle.afr_law_names.specs.Numbered.{EntriesAreNumbered};

use afr_law::a_gfid_is_of_one_kind;
pub use descending::entries_lead_down;
pub use file_links::a_found_file_may_be_linked;
pub use named_copies::entries_have_copies;

/// Whoever made the name: a directory is no file, and only directories have names.
pub fn no_file_holds_its_own_name()
    ensures names { OnlyDirectoriesHaveNames }
    ensures elsewhere { FilesElsewhere }
{
    a_gfid_is_of_one_kind();
}

/// No entry leads to the number 0, in the tables of any log: it stands for an object that is still to be made.
pub fn entries_are_numbered()
    ensures { EntriesAreNumbered }
{}
