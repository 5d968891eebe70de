//! What the lines of a client's command show, whatever the bricks answer.
#![tactic(auto)]

mod entry_tells;
mod read_tells;
mod removal_tells;
mod rename_tells;
mod second_tells;
mod write_tells;

ghost use Rattle.afr_law_client.specs.GivenUp.{GivenUpAbout, GivenUpEnds, GivenUpKept, GivesUp};
ghost use Rattle.afr_law_client.specs.Laws.{AboutNext, AsksAllForLocks, BlamesKept, CalmFirst, CalmKept, EndsAnswered, ExcusedFirst, ExcusedKept, FailedByBrick, HonestFits, HonestPhases, RepliesExactly, SkipsNone, TellsFirst, TellsKept, UndisturbedIsDone};
ghost use Rattle.afr_law_client.specs.Reads.{ReadsKept};

pub use entry_tells::an_entry_tells_its_lines;
pub use read_tells::{
    a_change_stands_at_its_object, a_lookup_tells_its_lines, a_walk_tells_its_lines,
    an_honest_read_fits,
};
pub use removal_tells::a_removal_tells_its_lines;
pub use rename_tells::a_rename_tells_its_lines;
pub use second_tells::{
    a_part_is_blamed_as_the_whole, a_second_transaction_tells, an_acknowledged_attempt_unlocks,
};
pub use write_tells::a_write_tells_its_lines;

/// The sets of a transaction are the folds of its lines, from the first to the last.
pub fn lines_tell_of_a_transaction()
    ensures first { TellsFirst }
    ensures kept { TellsKept }
    ensures about { AboutNext }
{}

/// A post-op accuses exactly those that missed its operation, each of which was told so since the first lock.
pub fn a_post_op_has_its_cause()
    ensures first { ExcusedFirst }
    ensures kept { ExcusedKept }
    ensures blames { BlamesKept }
{}

/// Where nothing of an attempt was told a fault, all that were asked for a phase did it.
pub fn a_calm_attempt_is_done()
    ensures first { CalmFirst }
    ensures kept { CalmKept }
    ensures undisturbed { UndisturbedIsDone }
    ensures failed { FailedByBrick }
{}

/// What an honest brick tells is what both of the above ask of its answers, if it has the object where it is asked for a phase.
pub fn an_honest_answer_fits()
    ensures fits { HonestFits }
    ensures phases { HonestPhases }
{}

/// A work may read between its lookups and its Begin line, as a name under its lock: all that is said here of its lines goes on to hold.
pub fn a_read_changes_no_transaction()
    ensures { ReadsKept }
{}

/// A change may be given up before its Begin line, as where its name is not what it must be: its locks are released, and
/// nothing of them refuses the command.
pub fn a_change_is_given_up()
    ensures gives { GivesUp }
    ensures kept { GivenUpKept }
    ensures about { GivenUpAbout }
    ensures ends { GivenUpEnds }
{}

/// Once only unlocks are left, the reply is what the lines refuse or answer, and nothing was skipped.
pub fn a_transaction_ends_with_its_cause()
    ensures replies { RepliesExactly }
    ensures asks { AsksAllForLocks }
    ensures skips { SkipsNone }
    ensures answered { EndsAnswered }
{}
