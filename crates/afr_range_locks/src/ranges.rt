//! Locks on ranges of an object.
ghost use Rattle.std.specs.Prelude.{◌≡◌, ℕ, ◌<◌, ◌↔◌, true, [], ◌∷◌, ◌++◌, Ok, Some, None, OnErr};
ghost use Rattle.afr_range_locks.specs.Locks.{overlap_range, place_of, range_lock, same_range};
ghost use Rattle.afr_lines.specs.Locks.{AreApart, IsInBoth, first_conflict, share_number, unlocked, without_owner};
ghost use Rattle.afr_range_locks.specs.declared.got.Got.TheVariants as got;

use crate::got::Got;
use crate::lockable::{Lockable, Place, Reach, Span};
use crate::locked::LockTable;
use afr_base::{ActorId, Gfid, NoMemory};
use afr_lines::{Domain, HeldLock};
use std::alloc::Global;
use std::marker::Model;

/// A range of an object, from a number up to and without another.
#[derive(Clone, Copy, Debug)]
pub struct ObjectRange {
    pub gfid: Gfid,
    pub from: u64,
    pub to: u64,
}

impl Lockable for ObjectRange {
    ghost overlap = { overlap_range };

    ghost same = { same_range };

    ghost at = { place_of };

    fn overlaps(&self, other: &ObjectRange) -> bool {
        self.gfid.0 == other.gfid.0 && shares_number(self, other)
    }

    fn is_same(&self, other: &ObjectRange) -> bool {
        self.gfid.0 == other.gfid.0 && self.from == other.from && self.to == other.to
    }

    fn place(&self) -> Place {
        Place {
            gfid: self.gfid,
            start: self.from,
        }
    }

    /// All starts below its own end.
    fn reach(&self) -> Reach {
        Reach {
            first: Span {
                from: 0,
                to: self.to.saturating_sub(1),
            },
            second: None,
        }
    }
}

/// The locks on ranges that are held, which contracts see as a list with the one that was granted first at its front.
/// Those that were granted last are kept in a row, all others in the order of domain, object, start and grant.
#[derive(Drop)]
pub struct RangeLocks {
    held: LockTable<ObjectRange>,
}

impl Model for RangeLocks {
    ghost use Rattle.std.specs.Prelude.{List};
    ghost use Rattle.afr_lines.specs.declared.lock.HeldLock.{HeldLock};
    ghost use Rattle.afr_range_locks.specs.declared.ranges.ObjectRange.{ObjectRange};

    ghost Value = { List (HeldLock ObjectRange) };

    ghost view = { λ r. r.held };
}

impl RangeLocks {
    pub fn new(alloc: Global) -> RangeLocks
        ensures { result ≡ [] }
    {
        RangeLocks {
            held: LockTable::new(alloc),
        }
    }

    /// Takes the lock, unless another owner's is in the way. An owner may hold the same lock twice.
    /// O(log n + k) steps on n held locks, where k of that domain and object start below its end;
    /// the others cost nothing, but for sixteen at most that were granted last. After 2^64 - 1 grants it
    /// wants memory.
    pub fn lock(
        &mut self,
        owner: ActorId,
        domain: Domain,
        g: Gfid,
        from: u64,
        to: u64,
    ) -> Result<Got, NoMemory>
        requires some { from < to }
        ensures granted { let wanted = range_lock owner domain g from to in
            result ≡ Ok got.Granted → (first_conflict overlap_range wanted self.old ≡ None) × (self.new ≡ self.old ++ wanted ∷ []) }
        ensures held { let wanted = range_lock owner domain g from to in
            (other : _) → result ≡ Ok (got.Held other) → (first_conflict overlap_range wanted self.old ≡ Some other) × (self.new ≡ self.old) }
        ensures err { let wanted = range_lock owner domain g from to in
            OnErr result ((first_conflict overlap_range wanted self.old ≡ None) × (self.new ≡ self.old)) }
    {
        self.held.lock(range_lock(owner, domain, g, from, to))
    }

    /// Releases the lock as often as it was granted; where it isn't held nothing changes. It takes no
    /// memory. O(log n + k) steps on n held locks, where k of that domain and object start where it
    /// does, and O(log n) more for each that it releases.
    pub fn unlock(&mut self, owner: ActorId, domain: Domain, g: Gfid, from: u64, to: u64)
        ensures { self.new ≡ unlocked same_range (range_lock owner domain g from to) self.old }
    {
        self.held.unlock(range_lock(owner, domain, g, from, to));
    }

    /// Releases all locks of an owner, and takes no memory. O(n) steps on n held locks.
    pub fn drop_owner(&mut self, owner: ActorId)
        ensures { self.new ≡ without_owner owner self.old }
    {
        self.held.drop_owner(owner);
    }

    /// Whatever was locked, released and dropped before: two owners never hold ranges of one domain that share a number.
    pub fn every_pair(&self)
        ensures { AreApart overlap_range self.now }
    {
        self.held.every_pair();
    }
}

/// Whether each of two ranges begins before the other ends, and has a number.
fn shares_number(one: &ObjectRange, other: &ObjectRange) -> bool
    ensures { result ≡ share_number one.now.from one.now.to other.now.from other.now.to }
{
    one.from < other.to && other.from < one.to && one.from < one.to && other.from < other.to
}

/// What it means that two ranges share a number.
pub fn ranges_share_a_number()
    ensures { (from to start end : ℕ) → (share_number from to start end ≡ true) ↔ IsInBoth from to start end }
{}

fn range_lock(owner: ActorId, domain: Domain, g: Gfid, from: u64, to: u64) -> HeldLock<ObjectRange>
    ensures { result ≡ range_lock owner domain g from to }
{
    HeldLock {
        owner,
        domain,
        area: ObjectRange { gfid: g, from, to },
    }
}
