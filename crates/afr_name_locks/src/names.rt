//! Locks on names of a directory, or on the whole of it.
ghost use Rattle.std.specs.Prelude.{◌≡◌, [], ◌∷◌, ◌++◌, Ok, Some, None, OnErr};
ghost use Rattle.afr_name_locks.specs.Names.{name_lock, overlap_dir_name, place_of, same_dir_name, start_of};
ghost use Rattle.afr_lines.specs.Locks.{same_name, share_name, AreApart, first_conflict, unlocked, without_owner};
ghost use Rattle.afr_range_locks.specs.declared.got.Got.TheVariants as got;

use afr_base::{ActorId, Gfid, NameId, NoMemory};
use afr_lines::{Domain, HeldLock};
use afr_range_locks::{Got, LockTable, Lockable, Place, Reach, Span};
use std::alloc::Global;
use std::marker::Model;

/// A name of a directory; None stands for the whole directory.
#[derive(Clone, Copy, Debug)]
pub struct DirName {
    pub gfid: Gfid,
    pub name: Option<NameId>,
}

impl Lockable for DirName {
    ghost overlap = { overlap_dir_name };

    ghost same = { same_dir_name };

    ghost at = { place_of };

    fn overlaps(&self, other: &DirName) -> bool {
        self.gfid.0 == other.gfid.0 && share_name(self.name, other.name)
    }

    fn is_same(&self, other: &DirName) -> bool {
        self.gfid.0 == other.gfid.0 && same_name(self.name, other.name)
    }

    fn place(&self) -> Place {
        Place {
            gfid: self.gfid,
            start: start_of(self.name),
        }
    }

    /// A name's own locks and those on the whole directory; for the whole directory all of its locks.
    fn reach(&self) -> Reach {
        match self.name {
            Some(_) => {
                let start = start_of(self.name);
                Reach {
                    first: Span {
                        from: start,
                        to: start,
                    },
                    second: Some(Span { from: 0, to: 0 }),
                }
            }
            None => Reach {
                first: Span {
                    from: 0,
                    to: u64::MAX,
                },
                second: None,
            },
        }
    }
}

/// Locks on the whole directory come before those on its names.
fn start_of(name: Option<NameId>) -> u64
    ensures { result ≡ start_of name }
{
    match name {
        Some(name) => u64::from(name.0) + 1,
        None => 0,
    }
}

fn share_name(one: Option<NameId>, other: Option<NameId>) -> bool
    ensures { result ≡ share_name one other }
{
    match (one, other) {
        (Some(one), Some(other)) => one.0 == other.0,
        _ => true,
    }
}

fn same_name(one: Option<NameId>, other: Option<NameId>) -> bool
    ensures { result ≡ same_name one other }
{
    match (one, other) {
        (Some(one), Some(other)) => one.0 == other.0,
        (None, None) => true,
        _ => false,
    }
}

/// The locks on names that are held, which contracts see as a list with the one that was granted first at its front.
/// Those that were granted last are kept in a row, all others in the order of domain, directory, name and grant.
#[derive(Drop)]
pub struct NameLocks {
    held: LockTable<DirName>,
}

impl Model for NameLocks {
    ghost use Rattle.std.specs.Prelude.{List};
    ghost use Rattle.afr_lines.specs.declared.lock.HeldLock.{HeldLock};
    ghost use Rattle.afr_name_locks.specs.declared.names.DirName.{DirName};

    ghost Value = { List (HeldLock DirName) };

    ghost view = { λ n. n.held };
}

impl NameLocks {
    pub fn new(alloc: Global) -> NameLocks
        ensures { result ≡ [] }
    {
        NameLocks {
            held: LockTable::new(alloc),
        }
    }

    /// Takes the lock, unless another owner's is in the way. An owner may hold the same lock twice.
    /// O(log n + k) steps on n held locks, where k of that domain and directory are on the name or on
    /// the whole directory; for the whole directory k counts all of its locks. The others cost
    /// nothing, but for sixteen at most that were granted last. After 2^64 - 1 grants it wants memory.
    pub fn lock(
        &mut self,
        owner: ActorId,
        domain: Domain,
        g: Gfid,
        name: Option<NameId>,
    ) -> Result<Got, NoMemory>
        ensures granted { let wanted = name_lock owner domain g name in
            result ≡ Ok got.Granted → (first_conflict overlap_dir_name wanted self.old ≡ None) × (self.new ≡ self.old ++ wanted ∷ []) }
        ensures held { let wanted = name_lock owner domain g name in
            (other : _) → result ≡ Ok (got.Held other) → (first_conflict overlap_dir_name wanted self.old ≡ Some other) × (self.new ≡ self.old) }
        ensures err { let wanted = name_lock owner domain g name in
            OnErr result ((first_conflict overlap_dir_name wanted self.old ≡ None) × (self.new ≡ self.old)) }
    {
        self.held.lock(name_lock(owner, domain, g, name))
    }

    /// Releases the lock as often as it was granted; where it isn't held nothing changes. It takes no
    /// memory. O(log n + k) steps on n held locks, where k of that domain and directory are on the
    /// name, and O(log n) more for each that it releases.
    pub fn unlock(&mut self, owner: ActorId, domain: Domain, g: Gfid, name: Option<NameId>)
        ensures { self.new ≡ unlocked same_dir_name (name_lock owner domain g name) self.old }
    {
        self.held.unlock(name_lock(owner, domain, g, name));
    }

    /// Releases all locks of an owner, and takes no memory. O(n) steps on n held locks.
    pub fn drop_owner(&mut self, owner: ActorId)
        ensures { self.new ≡ without_owner owner self.old }
    {
        self.held.drop_owner(owner);
    }

    /// Whatever was locked, released and dropped before: two owners never hold one name in one domain,
    /// nor one of them a name and the other its whole directory.
    pub fn every_pair(&self)
        ensures { AreApart overlap_dir_name self.now }
    {
        self.held.every_pair();
    }
}

fn name_lock(owner: ActorId, domain: Domain, g: Gfid, name: Option<NameId>) -> HeldLock<DirName>
    ensures { result ≡ name_lock owner domain g name }
{
    HeldLock {
        owner,
        domain,
        area: DirName { gfid: g, name },
    }
}
