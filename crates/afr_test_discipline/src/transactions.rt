//! A transaction, move by move, with moves out of turn.
use crate::lines::{
    FILE, all_bytes, asks, asks_all, clean, locks, makes, may_ask, may_end, raises, untouched,
};
use afr_base::Kind;
use afr_discipline::{Move, may};
use afr_lines::{Domain, Request, Told};
use afr_object::Change;

#[test]
fn moves_of_a_transaction_come_in_their_order(rt: HostRuntime) {
    let lock = locks(Domain::Work, all_bytes());
    let look = Request::Look { gfid: FILE };
    let pre = raises(Kind::Bytes);
    let apply = Request::Apply { attempt: 6 };
    let cut = Change::Cut { gfid: FILE, len: 0 };
    let mut register = untouched();
    assert!(rt; may_ask(&register, 0, &lock));
    assert!(rt; !may_ask(&register, 3, &lock));
    assert!(rt; !may(&register, &Move::Begin(&cut)));
    assert!(rt; may_end(&register));
    assert!(rt; asks_all(&mut register, &lock, Told::Granted, 0));
    assert!(rt; asks_all(&mut register, &look, Told::Seen(clean()), 3));
    assert!(rt; !may_ask(&register, 0, &pre));
    assert!(rt; !may_end(&register));
    assert!(rt; makes(&mut register, &Move::Begin(&cut), Told::Done, 6));
    assert!(rt; !may_ask(&register, 0, &apply));
    assert!(rt; asks(&mut register, 0, &pre, Told::Done, 7));
    assert!(rt; asks(&mut register, 1, &pre, Told::Done, 8));
    assert!(rt; may_ask(&register, 0, &apply));
    assert!(rt; !may_ask(&register, 1, &pre));
    assert!(rt; may_ask(&register, 2, &pre));
}
