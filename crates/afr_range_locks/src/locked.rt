//! A table of held locks, whatever they cover: those that were granted last in a row, and all others in a map.
ghost use Rattle.std.specs.Prelude.{◌≡◌, [], ◌∷◌, ◌++◌, Ok, Some, None, OnErr, OnOk};
ghost use Rattle.afr_lines.specs.Locks.{AreApart, first_conflict, unlocked, without_owner};
ghost use Rattle.afr_range_locks.specs.declared.got.Got.TheVariants as got;

use crate::got::Got;
use crate::held::HeldLocks;
use crate::late::{blocked_late, drop_late, make_place, release_late};
use crate::lockable::Lockable;
use afr_base::{ActorId, NoMemory};
use afr_lines::HeldLock;
use std::alloc::Global;
use std::marker::Model;

/// The locks that are held, which contracts see as a list with the one that was granted first at its front.
#[derive(Drop)]
pub struct LockTable<A: Lockable> {
    filed: HeldLocks<A>,
    /// The locks that were granted last, in the order of their grants.
    late: Vec<HeldLock<A>>,
}

impl<A: Lockable> Model for LockTable<A> {
    ghost use Rattle.std.specs.Prelude.{List, ◌++◌};
    ghost use Rattle.afr_lines.specs.Locks.{AreApart};
    ghost use Rattle.afr_lines.specs.declared.lock.HeldLock.{HeldLock};

    ghost Value = { List (HeldLock A) };

    ghost view = { λ t. t.filed ++ t.late.items };

    ghost invariant = { λ t. AreApart A.overlap (t.filed ++ t.late.items) };
}

impl<A: Lockable> LockTable<A> {
    pub fn new(alloc: Global) -> LockTable<A>
        ensures { result ≡ [] }
    {
        LockTable {
            filed: HeldLocks::new(alloc),
            late: Vec::new(alloc),
        }
    }

    /// Takes the lock, unless another owner's is in the way. An owner may hold the same lock twice.
    /// O(log n + k) steps on n held locks, k of which are in reach; the others cost nothing, but for
    /// those in the row. After 2^64 - 1 grants it wants memory.
    pub fn lock(&mut self, wanted: HeldLock<A>) -> Result<Got, NoMemory>
        ensures granted { result ≡ Ok got.Granted → (first_conflict A.overlap wanted self.old ≡ None) × (self.new ≡ self.old ++ wanted ∷ []) }
        ensures held { (owner : _) → result ≡ Ok (got.Held owner) → (first_conflict A.overlap wanted self.old ≡ Some owner) × (self.new ≡ self.old) }
        ensures err { OnErr result ((first_conflict A.overlap wanted self.old ≡ None) × (self.new ≡ self.old)) }
    {
        match self.blocked(&wanted) {
            Some(owner) => Ok(Got::Held(owner)),
            None => {
                self.grant(wanted)?;
                Ok(Got::Granted)
            }
        }
    }

    /// The owner of the first lock that is in the way.
    fn blocked(&self, wanted: &HeldLock<A>) -> Option<ActorId>
        ensures { result ≡ first_conflict A.overlap wanted.now self.now }
    {
        match self.filed.blocked(wanted) {
            Some(owner) => Some(owner),
            None => blocked_late(self.late.as_slice(), wanted),
        }
    }

    /// Adds a lock for which no other is in the way.
    fn grant(&mut self, wanted: HeldLock<A>) -> Result<(), NoMemory>
        requires { first_conflict A.overlap wanted self.old ≡ None }
        ensures ok { OnOk result (self.new ≡ self.old ++ wanted ∷ []) }
        ensures err { OnErr result (self.new ≡ self.old) }
    {
        make_place(&mut self.filed, &mut self.late)?;
        self.late.push(wanted)?;
        Ok(())
    }

    /// Releases the lock as often as it was granted, and takes no memory. O(log n + k) steps on n
    /// held locks, k of which start where it does, and O(log n) more for each that it releases.
    pub fn unlock(&mut self, held: HeldLock<A>)
        ensures { self.new ≡ unlocked A.same held self.old }
    {
        self.filed.unlock(&held);
        release_late(&mut self.late, &held);
    }

    /// Releases all locks of an owner, and takes no memory. O(n) steps on n held locks.
    pub fn drop_owner(&mut self, owner: ActorId)
        ensures { self.new ≡ without_owner owner self.old }
    {
        self.filed.drop_owner(owner);
        drop_late(&mut self.late, owner);
    }

    /// Whatever was locked, released and dropped before: two owners never hold what overlaps in one domain.
    pub fn every_pair(&self)
        ensures { AreApart A.overlap self.now }
    {
        let _ = &self.late;
    }
}
