//! How many works of an actor have ended.
ghost use Rattle.std.specs.Prelude.{◌≡◌, reverse};
ghost use Rattle.afr_lines.specs.Work.{ended, ends_work};

use afr_base::ActorId;
use afr_lines::{Line, ends_work};

/// How many works of the actor have ended.
pub(crate) fn ended(log: &[Line], a: ActorId) -> usize
    ensures { result ≡ ended a.0 (reverse log.now) }
{
    let mut works = 0;
    for line in log {
        if ends_work(a, line) {
            works += 1;
        }
    }
    works
}
