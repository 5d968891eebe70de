//! Post-op: each brick that has carried the change out closes the operation and accuses the bricks that have not.
ghost use Rattle.std.specs.Prelude.{◌≡◌, ◌≤◌};
ghost use Rattle.afr_base.specs.Bricks.{below, minus};
ghost use Rattle.afr_discipline.specs.Notes.{asked_at};
ghost use Rattle.afr_lines.specs.Areas.{kind_for};
ghost use Rattle.afr_object.specs.Tables.{object_of};
ghost use Rattle.afr_client_transaction.specs.Progress.{number_in};

use crate::fop::attempt_of;
use afr_base::BrickSet;
use afr_discipline::{Register, Step, asked_at};
use afr_lines::{Request, kind_for};
use afr_object::{Change, object_of};

/// The bricks whose post-op is still to be asked for.
pub(crate) fn to_post_op(r: &Register) -> BrickSet
    ensures { result ≡ minus r.now.done (asked_at r.now Step.Posts) }
{
    r.done.minus(asked_at(r, Step::Posts))
}

pub(crate) fn post_op_request(change: &Change, r: &Register) -> Request
    requires { r.now.shape.n ≤ 5 }
    ensures { result ≡ Request.Post (number_in r.now.begun) (object_of change.now) (kind_for change.now) (minus (below r.now.shape.n) r.now.done) }
{
    Request::Post {
        attempt: attempt_of(r),
        gfid: object_of(change),
        kind: kind_for(change),
        missed: BrickSet::all(r.shape.n).minus(r.done),
    }
}
