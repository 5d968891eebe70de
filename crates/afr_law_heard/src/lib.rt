//! What honest bricks let a client's machines hear.
#![tactic(auto)]

mod entry_heard;
mod rename_heard;
mod works_heard;

ghost use Rattle.afr_law_heard.specs.Finds.{FindsAttempt, FindsPath, FindsSeen, FindsSource};
ghost use Rattle.afr_law_heard.specs.Hears.{LookupBrings, LookupHears, WriteBrings, WriteHears, WriteMakesNothing};

pub use entry_heard::a_client_hears_of_its_names;
pub use rename_heard::a_client_hears_of_its_renames;
pub use works_heard::a_work_tells_its_lines;

/// What the lines of a work show is so: a brick that showed its copy, or has a good one, has the object still; an entry that
/// leads to the object of its path stood somewhere; and the log has the work's change by the number of its attempt.
pub fn a_work_finds_what_it_saw()
    ensures seen { FindsSeen }
    ensures source { FindsSource }
    ensures path { FindsPath }
    ensures attempt { FindsAttempt }
{}

/// A client hears what its machine asks of the bricks' answers: `lookup` of a read, `write` of a change. What goes with its
/// requests is what the log gives them, and its changes make nothing.
pub fn a_client_hears_what_it_asked()
    ensures lookup { LookupHears }
    ensures write { WriteHears }
    ensures loads { WriteBrings }
    ensures reads { LookupBrings }
    ensures begins { WriteMakesNothing }
{}
