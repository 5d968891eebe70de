//! One table of locks on names, in which each public call has its part.
use afr_base::{ActorId, Gfid, NameId};
use afr_lines::Domain;
use afr_name_locks::NameLocks;
use afr_range_locks::Got;

const ROOT: Gfid = Gfid(1);

/// Owner, domain, name, and what the request for the lock gets.
const REQUESTS: [(u16, Domain, Option<NameId>, Got); 7] = [
    (1, Domain::Work, Some(NameId(0)), Got::Granted),
    (2, Domain::Work, Some(NameId(1)), Got::Granted),
    (3, Domain::Work, Some(NameId(1)), Got::Held(ActorId(2))),
    (3, Domain::Work, None, Got::Held(ActorId(1))),
    (3, Domain::Heal, None, Got::Granted),
    (1, Domain::Heal, Some(NameId(0)), Got::Held(ActorId(3))),
    (1, Domain::Work, Some(NameId(0)), Got::Granted),
];

/// Whether the request gets this.
fn gets(locks: &mut NameLocks, owner: u16, domain: Domain, name: Option<NameId>, got: Got) -> bool {
    locks.lock(ActorId(owner), domain, ROOT, name) == Ok(got)
}

fn gets_each(locks: &mut NameLocks) -> bool {
    for (owner, domain, name, got) in REQUESTS {
        if !gets(locks, owner, domain, name, got) {
            return false;
        }
    }
    true
}

/// A lock is released, and all of an owner; the whole directory is granted then.
fn gives_way(locks: &mut NameLocks) -> bool {
    locks.unlock(ActorId(1), Domain::Work, ROOT, Some(NameId(0)));
    locks.drop_owner(ActorId(2));
    let granted = gets(locks, 3, Domain::Work, None, Got::Granted);
    locks.every_pair();
    granted
}

#[test]
fn the_whole_directory_is_in_the_way_of_each_name(rt: HostRuntime) {
    let mut locks = NameLocks::new(rt.alloc());
    let named = gets_each(&mut locks);
    assert!(rt; named);
    let gone = gives_way(&mut locks);
    assert!(rt; gone);
}
