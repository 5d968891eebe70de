//! What a change locks, and the number of what it makes.
use crate::transaction_tests::lines::{FILE, asks, begins, tells_three};
use afr_base::{AllMarks, BrickId, NameId, Shape, What};
use afr_client_transaction::{Transaction, has_area};
use afr_discipline::fresh;
use afr_lines::{Request, Told};
use afr_object::{Change, Chunk, Load, View};

#[test]
fn a_write_of_no_bytes_has_no_area(rt: HostRuntime) {
    let change = Change::Write {
        gfid: FILE,
        at: 0,
        bytes: Chunk::new(rt.alloc()),
    };
    assert!(rt; !has_area(&change));
    assert!(rt; has_area(&Change::Cut { gfid: FILE, len: 5 }));
}

/// What goes with the request after all three bricks have done pre-op.
fn carries_the_cut(transaction: &Transaction) -> bool {
    matches!(
        transaction.load(),
        Load::Change(Change::Cut { gfid: FILE, len: 5 })
    )
}

#[test]
fn the_operation_carries_the_change(rt: HostRuntime) {
    let shape = Shape {
        n: 3,
        arbiter: false,
    };
    let mut transaction = Transaction::continuing(fresh(shape), Change::Cut { gfid: FILE, len: 5 });
    begins(&mut transaction);
    assert!(rt; !carries_the_cut(&transaction));
    tells_three(&mut transaction, [Told::Done; 3]);
    assert!(rt; carries_the_cut(&transaction) && !transaction.is_beginning());
}

/// A name is read where the attempt could begin, and then the change is given up.
fn reads_and_gives_up(transaction: &mut Transaction) {
    let request = Request::ReadName {
        gfid: FILE,
        name: NameId(1),
    };
    if transaction.is_beginning() {
        transaction.note_read(BrickId(0), &request, &Told::Given, 6);
    }
    if transaction.is_beginning() {
        transaction.give_up();
    }
}

/// What the lowest brick is asked where the change of a name is given up.
fn after_giving_up() -> Option<Request> {
    let shape = Shape {
        n: 3,
        arbiter: false,
    };
    let change = Change::Remove {
        dir: FILE,
        name: NameId(1),
        what: What::File,
    };
    let dir = Told::Seen(View {
        what: What::Dir,
        len: 0,
        marks: AllMarks::zero(),
    });
    let mut transaction = Transaction::new(shape, change);
    tells_three(&mut transaction, [Told::Granted; 3]);
    tells_three(&mut transaction, [dir; 3]);
    reads_and_gives_up(&mut transaction);
    asks(&transaction, 0)
}

#[test]
fn a_change_that_is_given_up_is_unlocked(rt: HostRuntime) {
    assert!(rt; matches!(after_giving_up(), Some(Request::Unlock { .. })));
}
