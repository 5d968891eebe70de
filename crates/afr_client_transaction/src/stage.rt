//! The stages of a transaction: whom each still asks, for what, and which stage follows.
ghost use Rattle.std.specs.Prelude.{◌≡◌, ◌<◌, ◌≤◌, if◌then◌else◌, false};
ghost use Rattle.afr_discipline.specs.declared.register.Register.{Register};
ghost use Rattle.afr_client_transaction.specs.Progress.{after, asked_by, gone_on, left_in, request_in};

use crate::fop::{fop_request, is_fop_done, to_fop};
use crate::lock::{lock_request, lock_told, to_lock};
use crate::lookup::{lookup_request, lookup_told, to_look_up};
use crate::post_op::{post_op_request, to_post_op};
use crate::pre_op::{is_pre_op_done, pre_op_request, to_pre_op};
use crate::unlock::{to_unlock, unlock_request};
use afr_base::{BrickId, BrickSet};
use afr_discipline::{Move, Register, may};
use afr_lines::{Request, Told};
use afr_object::Change;

/// Where a transaction stands.
#[derive(Clone, Copy, Debug)]
pub enum Stage {
    /// The area is locked.
    Locking,
    /// The lookup under the locks.
    Looking,
    /// The next line gives the attempt its number.
    Beginning,
    /// Pre-op.
    Preparing,
    /// The operation.
    Applying,
    /// Post-op.
    Posting,
    /// The locks are released.
    Closing,
}

/// The bricks that were asked for locks and lookups; of the later phases the register knows.
#[derive(Clone, Copy)]
pub struct LocksAndLooks {
    /// Asked for the lock, and not told that another actor holds it.
    pub lock_asked: BrickSet,
    /// Where the lock was granted.
    pub locked_on: BrickSet,
    /// Looked at since.
    pub looked_at: BrickSet,
}

/// Who is still to be asked, and for what: a request is written where it is to stand, for it is large.
pub(crate) fn asking(
    stage: Stage,
    change: &Change,
    r: &Register,
    asked: &LocksAndLooks,
    request: &mut Request,
) -> BrickSet
    requires { r.now.shape.n ≤ 5 }
    ensures left { result ≡ left_in stage r.now asked.now }
    ensures request { request.new ≡ request_in stage change.now r.now }
{
    match stage {
        Stage::Locking => {
            *request = lock_request(change);
            to_lock(r.shape.n, asked)
        }
        Stage::Looking => {
            *request = lookup_request(change);
            to_look_up(asked)
        }
        Stage::Beginning => {
            *request = lookup_request(change);
            BrickSet::none()
        }
        Stage::Preparing => {
            *request = pre_op_request(change);
            to_pre_op(r)
        }
        Stage::Applying => {
            *request = fop_request(r);
            to_fop(r)
        }
        Stage::Posting => {
            *request = post_op_request(change, r);
            to_post_op(r)
        }
        Stage::Closing => {
            *request = unlock_request(change);
            to_unlock(r)
        }
    }
}

/// Who is still to be asked once the brick has answered, which is noted; this is the register since.
pub(crate) fn left_after(
    stage: Stage,
    b: BrickId,
    told: &Told,
    r: &Register,
    asked: &mut LocksAndLooks,
) -> BrickSet
    requires few { r.now.shape.n ≤ 5 }
    requires small { b.0 < 5 }
    ensures asked { asked.new ≡ asked_by stage b.0 told.now asked.old }
    ensures left { result ≡ left_in stage r.now asked.new }
{
    match stage {
        Stage::Locking => {
            lock_told(b, told, asked);
            to_lock(r.shape.n, asked)
        }
        Stage::Looking => {
            lookup_told(b, asked);
            to_look_up(asked)
        }
        Stage::Beginning => BrickSet::none(),
        Stage::Preparing => to_pre_op(r),
        Stage::Applying => to_fop(r),
        Stage::Posting => to_post_op(r),
        Stage::Closing => to_unlock(r),
    }
}

fn choose(enough: bool, stage: Stage) -> Stage
    ensures { result ≡ (if enough then stage else Stage.Closing) }
{
    if enough { stage } else { Stage::Closing }
}

/// The next stage, where nobody is left to ask.
fn go_on(stage: Stage, change: &Change, r: &Register, asked: &LocksAndLooks) -> Stage
    requires few { r.now.shape.n ≤ 5 }
    requires outside { r.now.inside ≡ false }
    ensures { result ≡ gone_on stage change.now r.now asked.now }
{
    match stage {
        Stage::Locking => choose(asked.locked_on.has_quorum(r.shape.n), Stage::Looking),
        Stage::Looking => choose(may(r, &Move::Begin(change)), Stage::Beginning),
        Stage::Beginning => Stage::Preparing,
        Stage::Preparing => choose(is_pre_op_done(change, r), Stage::Applying),
        Stage::Applying => choose(is_fop_done(change, r), Stage::Posting),
        Stage::Posting => Stage::Closing,
        Stage::Closing => Stage::Closing,
    }
}

/// The stage after an answer, where these are left to ask.
pub(crate) fn after(
    stage: Stage,
    left: BrickSet,
    change: &Change,
    r: &Register,
    asked: &LocksAndLooks,
) -> Stage
    requires few { r.now.shape.n ≤ 5 }
    requires outside { r.now.inside ≡ false }
    requires left { left ≡ left_in stage r.now asked.now }
    ensures { result ≡ after stage (record { change = change.now; register = r.now; stage = stage; asked = asked.now }) }
{
    if left.is_empty() {
        go_on(stage, change, r, asked)
    } else {
        stage
    }
}
