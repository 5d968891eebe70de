//! Pre-op: each brick with a copy counts the operation as begun, before any brick carries it out.
ghost use Rattle.std.specs.Prelude.{◌≡◌, ◌≤◌};
ghost use Rattle.afr_base.specs.Bricks.{minus};
ghost use Rattle.afr_choice.specs.Verdict.{holders_of};
ghost use Rattle.afr_discipline.specs.Notes.{asked_at};
ghost use Rattle.afr_lines.specs.Areas.{kind_for};
ghost use Rattle.afr_object.specs.Tables.{object_of};
ghost use Rattle.afr_client_transaction.specs.Progress.{enough};

use afr_base::BrickSet;
use afr_choice::holders;
use afr_discipline::{Register, Step, asked_at, suffices};
use afr_lines::{Request, kind_for};
use afr_object::{Change, object_of};

/// The bricks whose pre-op is still to be asked for.
pub(crate) fn to_pre_op(r: &Register) -> BrickSet
    ensures { result ≡ minus (holders_of r.now.looked) (asked_at r.now Step.Pres) }
{
    holders(&r.looked).minus(asked_at(r, Step::Pres))
}

pub(crate) fn pre_op_request(change: &Change) -> Request
    ensures { result ≡ Request.Pre (object_of change.now) (kind_for change.now) }
{
    Request::Pre {
        gfid: object_of(change),
        kind: kind_for(change),
    }
}

/// Whether a majority with a good copy has done pre-op.
pub(crate) fn is_pre_op_done(change: &Change, r: &Register) -> bool
    requires { r.now.shape.n ≤ 5 }
    ensures { result ≡ enough r.now (kind_for change.now) r.now.pre }
{
    suffices(r.shape, &r.looked, kind_for(change), r.pre)
}
