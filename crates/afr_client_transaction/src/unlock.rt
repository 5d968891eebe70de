//! The unlocks: the area is released wherever it is held, in rising order, and asked again where that failed.
ghost use Rattle.std.specs.Prelude.{◌≡◌};
ghost use Rattle.afr_lines.specs.Areas.{area_for};

use crate::change::area_of;
use afr_base::BrickSet;
use afr_discipline::Register;
use afr_lines::{Domain, Request};
use afr_object::Change;

/// The bricks that still hold the lock: a brick that answered NotConnected holds it no more.
pub(crate) fn to_unlock(r: &Register) -> BrickSet
    ensures { result ≡ r.now.held }
{
    r.held
}

pub(crate) fn unlock_request(change: &Change) -> Request
    ensures { result ≡ Request.Unlock Domain.Work (area_for change.now) }
{
    Request::Unlock {
        domain: Domain::Work,
        area: area_of(change),
    }
}
