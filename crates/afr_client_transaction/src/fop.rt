//! The operation (fop): each brick that has done pre-op carries the change out.
ghost use Rattle.std.specs.Prelude.{◌≡◌, ◌≤◌};
ghost use Rattle.afr_base.specs.Bricks.{minus};
ghost use Rattle.afr_discipline.specs.Notes.{asked_at};
ghost use Rattle.afr_lines.specs.Areas.{kind_for};
ghost use Rattle.afr_client_transaction.specs.Progress.{enough, number_in};

use afr_base::BrickSet;
use afr_discipline::{Register, Step, asked_at, begun, suffices};
use afr_lines::{Request, kind_for};
use afr_object::Change;

/// The bricks whose operation is still to be asked for.
pub(crate) fn to_fop(r: &Register) -> BrickSet
    ensures { result ≡ minus r.now.pre (asked_at r.now Step.Applies) }
{
    r.pre.minus(asked_at(r, Step::Applies))
}

/// The number of the attempt, which is the position of its Begin line.
pub(crate) fn attempt_of(r: &Register) -> u32
    ensures { result ≡ number_in r.now.begun }
{
    match begun(r) {
        Some(at) => at,
        None => 0,
    }
}

pub(crate) fn fop_request(r: &Register) -> Request
    ensures { result ≡ Request.Apply (number_in r.now.begun) }
{
    Request::Apply {
        attempt: attempt_of(r),
    }
}

/// Whether a majority with a good copy has carried the change out.
pub(crate) fn is_fop_done(change: &Change, r: &Register) -> bool
    requires { r.now.shape.n ≤ 5 }
    ensures { result ≡ enough r.now (kind_for change.now) r.now.done }
{
    suffices(r.shape, &r.looked, kind_for(change), r.done)
}
