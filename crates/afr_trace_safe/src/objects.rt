//! Whether all copies of some objects that have to be current are.
ghost use Rattle.std.specs.Prelude.{◌≡◌, ◌↔◌, ◌<◌, ◌≤◌, [], true, IfOk, length, reverse};
ghost use Rattle.afr_trace_safe.specs.Judged.{IsObjectSafe};
ghost use Rattle.afr_trace_safe.specs.Touched.{AreObjectsSafe};
ghost use Rattle.afr_trace_tally.specs.Tally.{IsTally};

use crate::attempts::attempts_on;
use crate::kinds::is_brick_safe;
use afr_base::{BrickId, Gfid, NoMemory};
use afr_lines::Line;
use afr_plan::Plan;
use afr_trace_tally::Tally;
use std::alloc::Global;

fn is_object_safe(
    alloc: Global,
    first: &Tally,
    tally: &Tally,
    plan: &Plan,
    log: &[Line],
    g: Gfid,
) -> Result<bool, NoMemory>
    requires shape { plan.now.shape.n ≤ 5 }
    requires first { IsTally plan.now [] first.now }
    requires tally { IsTally plan.now (reverse log.now) tally.now }
    requires few { length log.now < 2147483648 }
    ensures { IfOk result (λ yes. (yes ≡ true) ↔ IsObjectSafe plan.now (reverse log.now) g) }
{
    let attempts = attempts_on(alloc, log, g)?;
    for b in 0..plan.shape.n {
        let yes = is_brick_safe(
            alloc,
            first,
            tally,
            plan,
            log,
            attempts.as_slice(),
            g,
            BrickId(b),
        )?;
        if !yes {
            return Ok(false);
        }
    }
    Ok(true)
}

/// Whether the copies of some objects are current wherever they have to be.
pub(crate) fn are_objects_safe(
    alloc: Global,
    first: &Tally,
    tally: &Tally,
    plan: &Plan,
    log: &[Line],
    objects: &[Gfid],
) -> Result<bool, NoMemory>
    requires shape { plan.now.shape.n ≤ 5 }
    requires first { IsTally plan.now [] first.now }
    requires tally { IsTally plan.now (reverse log.now) tally.now }
    requires few { length log.now < 2147483648 }
    ensures { IfOk result (λ yes. (yes ≡ true) ↔ AreObjectsSafe plan.now (reverse log.now) objects.now) }
{
    for g in objects {
        let yes = is_object_safe(alloc, first, tally, plan, log, *g)?;
        if !yes {
            return Ok(false);
        }
    }
    Ok(true)
}
