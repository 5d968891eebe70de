//! One table of locks on ranges, in which each public call has its part.
use afr_base::{ActorId, Gfid};
use afr_lines::Domain;
use afr_range_locks::{Got, RangeLocks};

const FILE: Gfid = Gfid(18_446_744_073_709_551_617);

/// Owner, domain, range, and what the request for the lock gets.
const REQUESTS: [(u16, Domain, u64, u64, Got); 6] = [
    (1, Domain::Work, 0, 5, Got::Granted),
    (2, Domain::Work, 5, 9, Got::Granted),
    (3, Domain::Work, 4, 6, Got::Held(ActorId(1))),
    (3, Domain::Work, 5, 6, Got::Held(ActorId(2))),
    (3, Domain::Heal, 4, 6, Got::Granted),
    (1, Domain::Work, 2, 4, Got::Granted),
];

/// Whether the request gets this.
fn gets(
    locks: &mut RangeLocks,
    owner: u16,
    domain: Domain,
    (from, to): (u64, u64),
    got: Got,
) -> bool {
    from < to && locks.lock(ActorId(owner), domain, FILE, from, to) == Ok(got)
}

fn gets_each(locks: &mut RangeLocks) -> bool {
    for (owner, domain, from, to, got) in REQUESTS {
        if !gets(locks, owner, domain, (from, to), got) {
            return false;
        }
    }
    true
}

/// A lock is released, and all of an owner; what they kept out is granted then.
fn gives_way(locks: &mut RangeLocks) -> bool {
    locks.unlock(ActorId(1), Domain::Work, FILE, 0, 5);
    let first = gets(locks, 3, Domain::Work, (0, 2), Got::Granted);
    locks.drop_owner(ActorId(2));
    let second = gets(locks, 1, Domain::Work, (4, 9), Got::Granted);
    locks.every_pair();
    first && second
}

#[test]
fn the_first_in_the_way_is_named(rt: HostRuntime) {
    let mut locks = RangeLocks::new(rt.alloc());
    let named = gets_each(&mut locks);
    assert!(rt; named);
    let gone = gives_way(&mut locks);
    assert!(rt; gone);
}

/// Owner 1 locks the same range of this many other files: more than stand in a row.
fn locks_others(locks: &mut RangeLocks, count: u16) -> bool {
    for i in 0..count {
        let other = Gfid(u128::from(i) + 2);
        if locks.lock(ActorId(1), Domain::Work, other, 0, 5) != Ok(Got::Granted) {
            return false;
        }
    }
    true
}

#[test]
fn locks_on_other_files_change_no_answer(rt: HostRuntime) {
    let mut locks = RangeLocks::new(rt.alloc());
    let filled = locks_others(&mut locks, 10_000);
    assert!(rt; filled);
    let named = gets_each(&mut locks);
    assert!(rt; named);
    let gone = gives_way(&mut locks);
    assert!(rt; gone);
}
