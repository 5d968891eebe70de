//! A write, line by line: each move is allowed, and leaves its fields; and a brick that is gone.
use crate::lines::{
    FILE, all_bytes, asks, asks_all, clean, closes, locks, makes, raises, unlocks, untouched,
};
use afr_base::{BrickId, BrickSet, Kind};
use afr_discipline::{Move, begun};
use afr_lines::{Domain, Request, Told};
use afr_object::Change;

#[test]
fn a_write_notes_its_lines(rt: HostRuntime) {
    let mut register = untouched();
    let lock = locks(Domain::Work, all_bytes());
    let look = Request::Look { gfid: FILE };
    let cut = Change::Cut { gfid: FILE, len: 0 };
    let apply = Request::Apply { attempt: 6 };
    let unlock = unlocks(Domain::Work, all_bytes());
    assert!(rt; asks_all(&mut register, &lock, Told::Granted, 0));
    assert_eq!(rt; register.held, BrickSet::all(3));
    assert!(rt; asks_all(&mut register, &look, Told::Seen(clean()), 3));
    assert_eq!(rt; register.looked.reached, BrickSet::all(3));
    assert!(rt; makes(&mut register, &Move::Begin(&cut), Told::Done, 6));
    assert_eq!(rt; begun(&register), Some(6));
    assert!(rt; asks_all(&mut register, &raises(Kind::Bytes), Told::Done, 7));
    assert_eq!(rt; register.pre, BrickSet::all(3));
    assert!(rt; asks_all(&mut register, &apply, Told::Done, 10));
    assert_eq!(rt; register.done, BrickSet::all(3));
    assert!(rt; asks_all(&mut register, &closes(6), Told::Done, 13));
    assert_eq!(rt; register.post, BrickSet::all(3));
    assert!(rt; asks_all(&mut register, &unlock, Told::Done, 16));
    assert!(rt; register.held.is_empty());
    assert!(rt; makes(&mut register, &Move::End { ok: true }, Told::Done, 19));
    assert_eq!(rt; begun(&register), Some(6));
}

#[test]
fn a_brick_that_is_gone_keeps_no_lock_and_its_look_is_forgotten(rt: HostRuntime) {
    let mut register = untouched();
    let lock = locks(Domain::Work, all_bytes());
    let look = Request::Look { gfid: FILE };
    let others = BrickSet::all(3).without(BrickId(1));
    assert!(rt; asks_all(&mut register, &lock, Told::Granted, 0));
    assert!(rt; asks_all(&mut register, &look, Told::Seen(clean()), 3));
    assert!(rt; asks(&mut register, 1, &look, Told::NotConnected, 6));
    assert_eq!(rt; register.held, others);
    assert_eq!(rt; register.looked.reached, others);
    assert!(rt; asks(&mut register, 2, &look, Told::Failed, 7));
    assert_eq!(rt; register.held, others);
    assert_eq!(rt; register.looked.reached, BrickSet::all(1));
    assert_eq!(rt; register.looked.views[2], None);
}
