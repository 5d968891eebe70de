//! What a lock is: its name space, its owner, and what it covers.
use afr_base::ActorId;

/// A name space of locks. Locks of different domains don't conflict: transactions lock in the first,
/// self-heal locks in the second to keep other heals out.
#[derive(Clone, Copy, Debug, PartialEq, Eq)]
pub enum Domain {
    Work,
    Heal,
}

/// A lock that was granted, or one that is asked for.
#[derive(Clone, Copy, Debug)]
pub struct HeldLock<A> {
    pub owner: ActorId,
    pub domain: Domain,
    pub area: A,
}
