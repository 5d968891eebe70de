//! The locks: the area is locked at every brick, in rising order, and asked again where another actor holds one.
ghost use Rattle.std.specs.Prelude.{◌≡◌, ◌<◌, ◌≤◌, not};
ghost use Rattle.afr_base.specs.Bricks.{below, minus};
ghost use Rattle.afr_lines.specs.Areas.{area_for};
ghost use Rattle.afr_lines.specs.Told.{told_by};
ghost use Rattle.afr_model_moves.specs.Note.{is_granted, is_held};
ghost use Rattle.afr_client_transaction.specs.Made.{meets_another};
ghost use Rattle.afr_client_transaction.specs.Progress.{asked_by};
ghost use Rattle.afr_client_transaction.specs.declared.stage.Stage.{Stage};

use crate::change::area_of;
use crate::stage::{LocksAndLooks, Stage};
use afr_base::{BrickId, BrickSet};
use afr_lines::{Answer, Domain, Request, Told};
use afr_object::Change;

/// The bricks whose lock is still to be asked for.
pub(crate) fn to_lock(n: u8, asked: &LocksAndLooks) -> BrickSet
    requires { n ≤ 5 }
    ensures { result ≡ minus (below n) asked.now.lock_asked }
{
    BrickSet::all(n).minus(asked.lock_asked)
}

pub(crate) fn lock_request(change: &Change) -> Request
    ensures { result ≡ Request.Lock Domain.Work (area_for change.now) }
{
    Request::Lock {
        domain: Domain::Work,
        area: area_of(change),
    }
}

/// A brick has answered its lock.
pub(crate) fn lock_told(b: BrickId, told: &Told, asked: &mut LocksAndLooks)
    requires { b.0 < 5 }
    ensures { asked.new ≡ asked_by Stage.Locking b.0 told.now asked.old }
{
    asked.lock_asked = asked.lock_asked.with_if(!is_held(told), b);
    asked.locked_on = asked.locked_on.with_if(is_granted(told), b);
}

fn is_granted(told: &Told) -> bool
    ensures { result ≡ is_granted told.now }
{
    matches!(told, Told::Granted)
}

pub(crate) fn is_held(told: &Told) -> bool
    ensures { result ≡ is_held told.now }
{
    matches!(told, Told::Held(_))
}

/// Whether an answer says that another actor holds the lock.
pub(crate) fn says_held(answer: &Answer) -> bool
    ensures { result ≡ is_held (told_by answer.now) }
{
    matches!(answer, Answer::Held(_))
}

/// Whether a lock was asked for that another actor holds.
pub(crate) fn met_another(stage: Stage, told: &Told) -> bool
    ensures { result ≡ meets_another stage told.now }
{
    match stage {
        Stage::Locking => is_held(told),
        _ => false,
    }
}
