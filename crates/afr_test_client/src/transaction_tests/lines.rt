//! The answers of the tests, and what a transaction of a cut makes of them.
use afr_base::{AllMarks, Gfid, Shape, What};
use afr_client_transaction::{Transaction, TransactionOutcome};
use afr_lines::{Request, Told};
use afr_object::{Change, View};

pub(crate) const FILE: Gfid = Gfid(2);

/// A cut on three bricks.
pub(crate) fn cuts() -> Transaction {
    let shape = Shape {
        n: 3,
        arbiter: false,
    };
    Transaction::new(shape, Change::Cut { gfid: FILE, len: 5 })
}

/// A copy that nobody accuses by what it shows.
pub(crate) fn clean() -> Told {
    Told::Seen(View {
        what: What::File,
        len: 7,
        marks: AllMarks::zero(),
    })
}

/// The next request was told this.
pub(crate) fn tells(transaction: &mut Transaction, told: Told) {
    let mut request = Request::Index;
    if let Some(brick) = transaction.asks(&mut request) {
        transaction.hear(brick, &request, &told, 10);
    }
}

/// The next three requests were told these.
pub(crate) fn tells_three(transaction: &mut Transaction, told: [Told; 3]) {
    tells(transaction, told[0]);
    tells(transaction, told[1]);
    tells(transaction, told[2]);
}

/// Three locks, three clean copies and the Begin line.
pub(crate) fn begins(transaction: &mut Transaction) {
    tells_three(transaction, [Told::Granted; 3]);
    tells_three(transaction, [clean(); 3]);
    if let Ok(Some(_)) = transaction.begins(10) {
        transaction.begun(10);
    }
}

/// What is asked next, if it is asked of this brick.
pub(crate) fn asks(transaction: &Transaction, b: u8) -> Option<Request> {
    let mut request = Request::Index;
    let brick = transaction.asks(&mut request)?;
    if brick.0 == b { Some(request) } else { None }
}

pub(crate) fn is_acknowledged(transaction: &Transaction) -> bool {
    matches!(transaction.outcome(), TransactionOutcome::Acknowledged)
}
