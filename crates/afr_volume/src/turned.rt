//! What a turn has done.

use afr_base::ActorId;

/// `Moved` and `Waits` added one line, the others none.
#[derive(Clone, Copy, Debug, PartialEq, Eq)]
pub enum Turned {
    Moved,
    /// The line was told that this actor holds a conflicting lock.
    Waits(ActorId),
    /// The actor has no work left, or was killed.
    Ended,
    /// The log has all the lines that the plan allows.
    Full,
}
