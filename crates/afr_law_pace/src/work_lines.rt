//! How many lines a client's work has left, within the cost of its command.

ghost use Rattle.afr_law_pace.specs.Work.Left.{WorkBeginsNearer, WorkComesNearer, WorkKeepsEnd, WorkStartsWithin};

use crate::entry_lines::an_entry_comes_nearer;
use crate::rename_lines::a_rename_comes_nearer;

/// Whatever command it is and whatever the bricks answer: each line of a work takes what it counts in the log from the lines
/// that the work has left, and the work of a command begins within the cost of that command.
pub fn a_work_comes_nearer()
    ensures asked { WorkComesNearer }
    ensures begun { WorkBeginsNearer }
    ensures end { WorkKeepsEnd }
    ensures start { WorkStartsWithin }
{
    an_entry_comes_nearer();
    a_rename_comes_nearer();
}
