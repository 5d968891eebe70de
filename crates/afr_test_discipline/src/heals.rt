//! A heal of attributes, move by move, with moves out of turn.
ghost use Rattle.std.specs.Prelude.{◌≡◌, ◌≤◌};

use crate::lines::{
    FILE, all_attrs, all_bytes, asks, asks_all, may_ask, may_end, puts, raises, sees_behind,
    settles, unlocks, untouched,
};
use afr_base::{BrickId, BrickSet, Kind};
use afr_discipline::{Register, Step, asked_at};
use afr_lines::{Domain, Request, Told};

/// A heal that has read at brick 0 and raised the numbers of the others; tells whether each of its moves was allowed.
fn raises_others(register: &mut Register) -> bool
    requires { register.old.shape.n ≤ 5 }
    ensures { register.new.shape ≡ register.old.shape }
{
    let read = Request::ReadAttrs { gfid: FILE };
    let pre = raises(Kind::Attrs);
    let seen = sees_behind(register);
    let given = asks(register, 0, &read, Told::Given, 10);
    let second = asks(register, 1, &pre, Told::Done, 11);
    let third = asks(register, 2, &pre, Told::Done, 12);
    seen && given && second && third
}

#[test]
fn a_heal_mends_with_its_read_and_settles_what_is_owed(rt: HostRuntime) {
    let unlock = unlocks(Domain::Work, all_attrs());
    let mut register = untouched();
    assert!(rt; raises_others(&mut register));
    assert!(rt; !may_ask(&register, 1, &puts(11)));
    assert!(rt; !may_ask(&register, 0, &puts(10)));
    assert!(rt; !may_ask(&register, 0, &settles(1, 0)));
    assert!(rt; asks(&mut register, 1, &puts(10), Told::Done, 13));
    assert!(rt; asks(&mut register, 2, &puts(10), Told::Done, 14));
    let others = BrickSet::all(3).without(BrickId(0));
    assert!(rt; asked_at(&register, Step::Mends) == others);
    assert!(rt; may_ask(&register, 0, &settles(1, 0)));
    assert!(rt; !may_ask(&register, 0, &settles(1, 1)));
    assert!(rt; !may_ask(&register, 0, &settles(0, 0)));
    assert!(rt; !may_ask(&register, 0, &unlock));
}

#[test]
fn a_broken_heal_gives_back_its_locks_and_ends(rt: HostRuntime) {
    let work = unlocks(Domain::Work, all_attrs());
    let heal = unlocks(Domain::Heal, all_bytes());
    let mut register = untouched();
    assert!(rt; raises_others(&mut register));
    assert!(rt; asks(&mut register, 1, &puts(10), Told::Failed, 13));
    assert!(rt; register.broken && !may_ask(&register, 2, &puts(10)));
    assert!(rt; !may_end(&register));
    assert!(rt; asks_all(&mut register, &work, Told::Done, 14));
    assert!(rt; !may_end(&register));
    assert!(rt; asks_all(&mut register, &heal, Told::Done, 17));
    assert!(rt; may_end(&register));
}
