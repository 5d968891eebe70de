//! The map of held locks, in the order of domain, object, start and grant.
ghost use Rattle.std.specs.Prelude.{◌≡◌, [], ◌+◌, ◌<◌, ◌≤◌, ◌^◌, Some, None, if◌then◌else◌, true, length, not, IfOk, OnOk, OnErr};
ghost use Rattle.std.specs.BTreeMap.{IsOrdered, insert_entry};
ghost use Rattle.std.specs.List.{AllByRecursion, filter};
ghost use Rattle.afr_lines.specs.Locks.{conflicts, first_conflict, is_lock, same_domain};
ghost use Rattle.afr_range_locks.specs.Granted.{AreFresh, IsFiled, at_place, conflict_at, domain_number, earlier, first_equal, first_granted, granted, in_second, in_span, key_cmp, key_of, owner_of};
ghost use Rattle.afr_range_locks.specs.Reached.{IsForwardSpan};

use crate::lockable::{Lockable, Place, Span};
use afr_base::{ActorId, Gfid, NoMemory};
use afr_lines::{Domain, HeldLock};
use std::collections::BTreeMap;

/// Where a held lock stands in the map. `grant` is the count of grants before it.
#[derive(Clone, Copy, PartialEq, Eq, PartialOrd, Ord)]
pub(crate) struct Key {
    domain: u8,
    gfid: Gfid,
    start: u64,
    grant: u64,
}

pub(crate) type Locks<A> = BTreeMap<Key, HeldLock<A>>;

/// So many locks are looked at one after the other: to find a place in the map costs more.
const FEW: usize = 8;

/// A held lock that is in the way.
#[derive(Clone, Copy)]
struct Conflict {
    grant: u64,
    owner: ActorId,
}

pub(crate) fn key_of(domain: Domain, place: Place, grant: u64) -> Key
    ensures { result ≡ key_of domain place grant }
{
    Key {
        domain: domain_number(domain),
        gfid: place.gfid,
        start: place.start,
        grant,
    }
}

fn domain_number(domain: Domain) -> u8
    ensures { result ≡ domain_number domain }
{
    match domain {
        Domain::Work => 0,
        Domain::Heal => 1,
    }
}

/// Whether no lock is held.
#[inline]
pub(crate) fn holds_none<A: Lockable>(locks: &Locks<A>) -> bool
    ensures { result ≡ true → locks.now.entries ≡ [] }
{
    locks.len() == 0
}

/// The owner of the first lock that is in the way, in O(log n + k) for k locks in reach.
pub(crate) fn blocked_by<A: Lockable>(
    locks: &Locks<A>,
    next: u64,
    wanted: &HeldLock<A>,
) -> Option<ActorId>
    requires filed { AllByRecursion (IsFiled A.at next) locks.now.entries }
    requires fresh { AreFresh locks.now.entries }
    ensures { result ≡ first_conflict A.overlap wanted.now (granted next locks.now.entries) }
{
    if locks.len() <= 1 {
        owner_of(of_one(locks, wanted))
    } else if locks.len() <= FEW {
        owner_of(first_of_all(locks, wanted))
    } else {
        blocked_in_reach(locks, next, wanted)
    }
}

/// The conflict with the lock that is held, where no other is.
fn of_one<A: Lockable>(locks: &Locks<A>, wanted: &HeldLock<A>) -> Option<Conflict>
    requires { length locks.now.entries ≤ 1 }
    ensures { result ≡ first_granted A.overlap wanted.now locks.now.entries }
{
    match locks.first_key_value() {
        Some((key, lock)) => conflict_at(wanted, key, lock),
        None => None,
    }
}

/// The conflict that was granted first, of all.
#[tactic(auto, using(crate::proofs::EarlierLemmas::earlier_assoc, crate::proofs::EarlierLemmas::earlier_none))]
fn first_of_all<A: Lockable>(locks: &Locks<A>, wanted: &HeldLock<A>) -> Option<Conflict>
    ensures { result ≡ first_granted A.overlap wanted.now locks.now.entries }
{
    let mut found = None;
    for (key, lock) in locks.iter() {
        found = earlier(found, conflict_at(wanted, key, lock));
    }
    found
}

/// The owner of the first lock that is in the way, where only those in reach are looked at.
#[inline(never)]
fn blocked_in_reach<A: Lockable>(
    locks: &Locks<A>,
    next: u64,
    wanted: &HeldLock<A>,
) -> Option<ActorId>
    requires filed { AllByRecursion (IsFiled A.at next) locks.now.entries }
    requires fresh { AreFresh locks.now.entries }
    ensures { result ≡ first_conflict A.overlap wanted.now (granted next locks.now.entries) }
{
    let gfid = wanted.area.place().gfid;
    let reach = wanted.area.reach();
    let first = first_in(locks, next, wanted, gfid, reach.first);
    let second = second_in(locks, next, wanted, gfid, reach.second);
    owner_of(earlier(first, second))
}

/// The conflict that was granted first, of those that start in a span.
#[tactic(auto, using(crate::proofs::EarlierLemmas::earlier_assoc, crate::proofs::EarlierLemmas::earlier_none, crate::proofs::KeyLemmas::span_forward))]
fn first_in<A: Lockable>(
    locks: &Locks<A>,
    next: u64,
    wanted: &HeldLock<A>,
    gfid: Gfid,
    span: Span,
) -> Option<Conflict>
    requires { span.from ≤ span.to }
    ensures { result ≡ first_granted A.overlap wanted.now (in_span wanted.now.domain gfid span next locks.now.entries) }
{
    let from = Place {
        gfid,
        start: span.from,
    };
    let to = Place {
        gfid,
        start: span.to,
    };
    let low = key_of(wanted.domain, from, 0);
    let high = key_of(wanted.domain, to, next);
    let mut found = None;
    for (key, lock) in locks.range(low..high) {
        found = earlier(found, conflict_at(wanted, key, lock));
    }
    found
}

fn second_in<A: Lockable>(
    locks: &Locks<A>,
    next: u64,
    wanted: &HeldLock<A>,
    gfid: Gfid,
    span: Option<Span>,
) -> Option<Conflict>
    requires { IsForwardSpan span }
    ensures { result ≡ first_granted A.overlap wanted.now (in_second wanted.now.domain gfid span next locks.now.entries) }
{
    match span {
        Some(span) => first_in(locks, next, wanted, gfid, span),
        None => None,
    }
}

fn conflict_at<A: Lockable>(wanted: &HeldLock<A>, key: &Key, lock: &HeldLock<A>) -> Option<Conflict>
    ensures { result ≡ conflict_at A.overlap wanted.now (key.now, lock.now) }
{
    if conflicts(wanted, lock) {
        Some(Conflict {
            grant: key.grant,
            owner: lock.owner,
        })
    } else {
        None
    }
}

fn earlier(one: Option<Conflict>, other: Option<Conflict>) -> Option<Conflict>
    ensures { result ≡ earlier one other }
{
    match (one, other) {
        (Some(one), Some(other)) => {
            if other.grant < one.grant {
                Some(other)
            } else {
                Some(one)
            }
        }
        (Some(one), None) => Some(one),
        (None, other) => other,
    }
}

fn owner_of(conflict: Option<Conflict>) -> Option<ActorId>
    ensures { result ≡ owner_of conflict }
{
    match conflict {
        Some(conflict) => Some(conflict.owner),
        None => None,
    }
}

/// Puts a lock in under the next grant's number, in O(log n). Gives the number after that.
pub(crate) fn file<A: Lockable>(
    locks: &mut Locks<A>,
    next: u64,
    lock: HeldLock<A>,
) -> Result<u64, NoMemory>
    ensures next { IfOk result (λ after. after ≡ next + 1) }
    ensures entries { OnOk result (locks.new.entries ≡ insert_entry key_cmp locks.old.entries (key_of lock.domain (A.at lock.area) next) lock) }
    ensures start { OnOk result ((A.at lock.area).start < 2 ^ 64) }
    ensures err { OnErr result (locks.new.entries ≡ locks.old.entries) }
{
    let Some(after) = next.checked_add(1) else {
        return Err(NoMemory);
    };
    let place = lock.area.place();
    match locks.insert(key_of(lock.domain, place, next), lock) {
        Ok(_) => Ok(after),
        Err(_) => Err(NoMemory),
    }
}

/// Takes each equal lock out, in O(k + r log n), where k locks start at its place and r are equal.
pub(crate) fn release<A: Lockable>(locks: &mut Locks<A>, next: u64, held: &HeldLock<A>)
    requires { AllByRecursion (IsFiled A.at next) locks.old.entries }
    ensures { locks.new.entries ≡ filter (λ e. not (is_lock A.same held.now e.1)) locks.old.entries }
{
    if locks.len() <= 1 {
        release_one(locks, held);
        return;
    }
    let mut from = 0;
    while let Some(key) = first_equal(locks, next, held, from) {
        locks.remove(&key);
        from = key.grant;
    }
}

/// The same, where at most one lock is held: where it is equal, it is the first, which is taken out without a search.
fn release_one<A: Lockable>(locks: &mut Locks<A>, held: &HeldLock<A>)
    requires { length locks.old.entries ≤ 1 }
    ensures { locks.new.entries ≡ filter (λ e. not (is_lock A.same held.now e.1)) locks.old.entries }
{
    if let Some(_) = equal_of_one(locks, held) {
        locks.pop_first();
    }
}

/// The key of the lock that is held, where it is equal.
fn equal_of_one<A: Lockable>(locks: &Locks<A>, held: &HeldLock<A>) -> Option<Key>
    requires { length locks.now.entries ≤ 1 }
    ensures { result ≡ first_equal A.same held.now locks.now.entries }
{
    match locks.first_key_value() {
        Some((key, lock)) => key_if(is_lock(held, lock), key),
        None => None,
    }
}

fn key_if(is: bool, key: &Key) -> Option<Key>
    ensures { result ≡ (if is then Some key.now else None) }
{
    if is { Some(*key) } else { None }
}

/// The key of the first equal lock whose grant number isn't below `from`.
fn first_equal<A: Lockable>(
    locks: &Locks<A>,
    next: u64,
    held: &HeldLock<A>,
    from: u64,
) -> Option<Key>
    requires from { from ≤ next }
    requires filed { AllByRecursion (IsFiled A.at next) locks.now.entries }
    ensures first { result ≡ first_equal A.same held.now (at_place held.now.domain (A.at held.now.area) from next locks.now.entries) }
    ensures order { IsOrdered key_cmp locks.now }
    ensures place { (other : _) → A.same held.now.area other ≡ true → A.at other ≡ A.at held.now.area }
{
    if locks.len() <= FEW {
        first_among(locks, next, held, from)
    } else {
        first_at_place(locks, next, held, from)
    }
}

/// The same, where all are looked at.
fn first_among<A: Lockable>(
    locks: &Locks<A>,
    next: u64,
    held: &HeldLock<A>,
    from: u64,
) -> Option<Key>
    requires filed { AllByRecursion (IsFiled A.at next) locks.now.entries }
    ensures first { result ≡ first_equal A.same held.now (at_place held.now.domain (A.at held.now.area) from next locks.now.entries) }
    ensures order { IsOrdered key_cmp locks.now }
    ensures place { (other : _) → A.same held.now.area other ≡ true → A.at other ≡ A.at held.now.area }
{
    let _ = (next, held.area.place());
    for (key, lock) in locks.iter() {
        if key.grant >= from && is_lock(held, lock) {
            return Some(*key);
        }
    }
    None
}

/// The same, where only those at its place are looked at.
#[inline(never)]
#[tactic(auto, using(crate::proofs::KeyLemmas::at_place_forward))]
fn first_at_place<A: Lockable>(
    locks: &Locks<A>,
    next: u64,
    held: &HeldLock<A>,
    from: u64,
) -> Option<Key>
    requires { from ≤ next }
    ensures first { result ≡ first_equal A.same held.now (at_place held.now.domain (A.at held.now.area) from next locks.now.entries) }
    ensures order { IsOrdered key_cmp locks.now }
    ensures place { (other : _) → A.same held.now.area other ≡ true → A.at other ≡ A.at held.now.area }
{
    let place = held.area.place();
    let low = key_of(held.domain, place, from);
    let high = key_of(held.domain, place, next);
    for (key, lock) in locks.range(low..high) {
        if is_lock(held, lock) {
            return Some(*key);
        }
    }
    None
}

pub(crate) fn conflicts<A: Lockable>(wanted: &HeldLock<A>, held: &HeldLock<A>) -> bool
    ensures { result ≡ conflicts A.overlap wanted.now held.now }
{
    held.owner.0 != wanted.owner.0
        && same_domain(wanted.domain, held.domain)
        && wanted.area.overlaps(&held.area)
}

pub(crate) fn is_lock<A: Lockable>(one: &HeldLock<A>, held: &HeldLock<A>) -> bool
    ensures { result ≡ is_lock A.same one.now held.now }
{
    one.owner.0 == held.owner.0
        && same_domain(one.domain, held.domain)
        && one.area.is_same(&held.area)
}

fn same_domain(one: Domain, other: Domain) -> bool
    ensures { result ≡ same_domain one other }
{
    match (one, other) {
        (Domain::Work, Domain::Work) => true,
        (Domain::Heal, Domain::Heal) => true,
        _ => false,
    }
}
