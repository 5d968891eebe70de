//! Whether a log is safe that was safe before its last line.
ghost use Rattle.std.specs.Prelude.{◌≡◌, ◌↔◌, ◌<◌, ◌≤◌, [], true, IfOk, length, reverse};
ghost use Rattle.afr_model.specs.Safe.{IsSafe};
ghost use Rattle.afr_trace_safe.specs.Touched.{WasSafe};
ghost use Rattle.afr_trace_tally.specs.Tally.{IsTally};

use crate::objects::are_objects_safe;
use afr_base::{Gfid, NoMemory};
use afr_lines::Line;
use afr_plan::Plan;
use afr_trace_tally::Tally;
use std::alloc::Global;

/// Whether each cell of each good copy of any majority is current after a log, given the tally before its first line, the one after its
/// last, and the objects that its last line touches; before that line it was so. For each of these objects it walks over the log once,
/// and from each attempt on the object to the End line after it, and takes a step for each cell of it on each brick and each attempt.
pub fn is_safe(
    alloc: Global,
    first: &Tally,
    tally: &Tally,
    plan: &Plan,
    log: &[Line],
    objects: &[Gfid],
) -> Result<bool, NoMemory>
    requires shape { plan.now.shape.n ≤ 5 }
    requires first { IsTally plan.now [] first.now }
    requires tally { IsTally plan.now (reverse log.now) tally.now }
    requires few { length log.now < 2147483648 }
    requires was { WasSafe plan.now (reverse log.now) objects.now }
    ensures { IfOk result (λ safe. (safe ≡ true) ↔ IsSafe plan.now (reverse log.now)) }
{
    let safe = are_objects_safe(alloc, first, tally, plan, log, objects)?;
    Ok(safe)
}
