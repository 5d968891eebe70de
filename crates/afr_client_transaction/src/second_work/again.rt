//! How a second transaction begins.
ghost use Rattle.std.specs.Prelude.{◌≡◌, ◌<◌, true};
ghost use Rattle.afr_client_transaction.specs.Again.Again.{IsPlain};
ghost use Rattle.afr_client_transaction.specs.Progress.{fed, is_over, starting};
ghost use Rattle.afr_client_transaction.specs.Sound.{Suits};
ghost use Rattle.afr_client_transaction.specs.declared.stage.Stage.{Stage};

use crate::Transaction;
use afr_lines::{Request, Told};
use afr_object::Change;

/// The first lock of a second transaction was told this, after one that is over: a new transaction hears it, since the lock
/// clears what the first one has left in the register.
pub fn begins_again(first: &Transaction, change: Change, told: &Told, at: u32) -> Transaction
    requires over { is_over first.now.stage first.now ≡ true }
    requires plain { IsPlain first.now.register }
    requires some { 0 < first.now.register.shape.n }
    requires suits { Suits change }
    ensures { result ≡ fed Stage.Locking told.now at (starting change first.now.register) }
{
    first.stays_sound();
    let shape = first.register().shape;
    let mut second = Transaction::new(shape, change);
    let mut request = Request::Index;
    let Some(brick) = second.asks(&mut request) else {
        return second;
    };
    second.hear(brick, &request, told, at);
    second
}
