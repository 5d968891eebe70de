//! Where a thread can be held between its turns.

use afr_base::ActorId;

/// Each thread passes the gate before it takes the lock. A gate decides nothing but when: whatever it does, what lies under
/// the lock has the same promises. Tests hold threads at it, to bring about an order of turns.
pub trait Gate {
    /// Returns where the actor's thread may go on. `turn` counts the passes of this thread, from 1.
    fn pass(&self, a: ActorId, turn: u64);
}

/// Holds nobody: the gate that the program is shipped with.
#[derive(Clone, Copy, Debug)]
pub struct NoGate;

impl Gate for NoGate {
    fn pass(&self, _a: ActorId, _turn: u64) {}
}
