//! Held locks in a map, whatever they cover.
ghost use Rattle.std.specs.Prelude.{◌≡◌, [], ◌∷◌, ◌++◌, Ok, Some, None, OnErr};
ghost use Rattle.afr_lines.specs.Locks.{AreApart, first_conflict, unlocked, without_owner};
ghost use Rattle.afr_range_locks.specs.declared.got.Got.TheVariants as got;

use crate::got::Got;
use crate::lockable::Lockable;
use crate::table::{Locks, blocked_by, file, holds_none, release};
use afr_base::{ActorId, NoMemory};
use afr_lines::HeldLock;
use std::alloc::Global;
use std::collections::BTreeMap;
use std::marker::Model;

/// The locks that are held, which contracts see as a list with the one that was granted first at its front.
/// `next` is the count of grants so far.
#[derive(Drop)]
pub(crate) struct HeldLocks<A: Lockable> {
    next: u64,
    locks: Locks<A>,
}

impl<A: Lockable> Model for HeldLocks<A> {
    ghost use Rattle.std.specs.Prelude.{List};
    ghost use Rattle.afr_lines.specs.declared.lock.HeldLock.{HeldLock};
    ghost use Rattle.afr_range_locks.specs.Granted.{IsTable, granted};

    ghost Value = { List (HeldLock A) };

    ghost view = { λ h. granted h.next h.locks.entries };

    ghost invariant = { λ h. IsTable A.overlap A.at h.next h.locks.entries };
}

impl<A: Lockable> HeldLocks<A> {
    pub(crate) fn new(alloc: Global) -> HeldLocks<A>
        ensures { result ≡ [] }
    {
        HeldLocks {
            next: 0,
            locks: BTreeMap::new(alloc),
        }
    }

    /// Takes the lock, unless another owner's is in the way. An owner may hold the same lock twice.
    /// O(log n + k) steps on n held locks, k of which are in reach; the others cost nothing. After
    /// 2^64 - 1 grants it wants memory.
    pub(crate) fn lock(&mut self, wanted: HeldLock<A>) -> Result<Got, NoMemory>
        ensures granted { result ≡ Ok got.Granted → (first_conflict A.overlap wanted self.old ≡ None) × (self.new ≡ self.old ++ wanted ∷ []) }
        ensures held { (owner : _) → result ≡ Ok (got.Held owner) → (first_conflict A.overlap wanted self.old ≡ Some owner) × (self.new ≡ self.old) }
        ensures err { OnErr result ((first_conflict A.overlap wanted self.old ≡ None) × (self.new ≡ self.old)) }
    {
        match blocked_by(&self.locks, self.next, &wanted) {
            Some(owner) => Ok(Got::Held(owner)),
            None => {
                let next = file(&mut self.locks, self.next, wanted)?;
                self.next = next;
                Ok(Got::Granted)
            }
        }
    }

    /// The owner of the first lock that is in the way. Where no lock is held, that is one comparison.
    #[inline]
    pub(crate) fn blocked(&self, wanted: &HeldLock<A>) -> Option<ActorId>
        ensures { result ≡ first_conflict A.overlap wanted.now self.now }
    {
        if holds_none(&self.locks) {
            return None;
        }
        self.blocked_by_some(*wanted)
    }

    /// It takes a copy, so that a lock stays in registers where no search among many is needed.
    #[inline(never)]
    fn blocked_by_some(&self, wanted: HeldLock<A>) -> Option<ActorId>
        ensures { result ≡ first_conflict A.overlap wanted self.now }
    {
        blocked_by(&self.locks, self.next, &wanted)
    }

    /// Releases the lock as often as it was granted, and takes no memory. O(log n + k) steps on n
    /// held locks, k of which start where it does, and O(log n) more for each that it releases.
    #[inline]
    pub(crate) fn unlock(&mut self, held: &HeldLock<A>)
        ensures { self.new ≡ unlocked A.same held.now self.old }
    {
        if holds_none(&self.locks) {
            return;
        }
        self.unlock_some(*held);
    }

    #[inline(never)]
    fn unlock_some(&mut self, held: HeldLock<A>)
        ensures { self.new ≡ unlocked A.same held self.old }
    {
        release(&mut self.locks, self.next, &held);
    }

    /// Releases all locks of an owner, and takes no memory. O(n) steps on n held locks.
    pub(crate) fn drop_owner(&mut self, owner: ActorId)
        ensures { self.new ≡ without_owner owner self.old }
    {
        self.locks.retain(|_, lock| lock.owner.0 != owner.0);
    }

    /// Whatever was locked, released and dropped before: two owners never hold what overlaps in one domain.
    pub(crate) fn every_pair(&self)
        ensures { AreApart A.overlap self.now }
    {
        let _ = &self.locks;
    }
}
