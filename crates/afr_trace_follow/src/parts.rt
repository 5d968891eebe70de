//! Where the present work of an actor begins.
ghost use Rattle.std.specs.Prelude.{◌≡◌, reverse};
ghost use Rattle.afr_trace_follow.specs.Parts.{work_start};

use afr_base::ActorId;
use afr_lines::{Line, ends_work};

/// Where the present work begins: after its last End line, which is looked for from the newest line on.
pub fn work_start(log: &[Line], a: ActorId) -> usize
    ensures { result ≡ work_start a.0 (reverse log.now) }
{
    for i in 0..log.len() {
        let position = log.len() - 1 - i;
        if ends_work(a, &log[position]) {
            return position + 1;
        }
    }
    0
}
