//! The faults that a plan has for one brick.
ghost use Rattle.std.specs.Prelude.{◌≡◌, ℕ, IfOk};
ghost use Rattle.afr_faults.specs.Planned.{fault_at};
ghost use Rattle.afr_model.specs.Honest.{fault_in};

use afr_base::{BrickId, NoMemory};
use afr_faults::FaultPlan;
use afr_plan::PlannedFault;
use std::alloc::Global;

/// The faults of the brick by the counts of its requests, of which none came yet. O(n log n) steps
/// on n faults.
pub fn planned_faults(
    alloc: Global,
    faults: &[PlannedFault],
    brick: BrickId,
) -> Result<FaultPlan, NoMemory>
    ensures requests { IfOk result (λ plan. plan.requests ≡ 0) }
    ensures faults { IfOk result (λ plan. (count : ℕ) → fault_at count plan ≡ fault_in faults.now brick.0 count) }
{
    let mut plan = FaultPlan::new(alloc);
    let mut left = faults.len();
    // The last comes first: where two have one count, the later addition replaces the earlier.
    while left > 0 {
        left -= 1;
        let fault = faults[left];
        if fault.brick.0 == brick.0 {
            plan.add(fault.at, fault.fault)?;
        }
    }
    Ok(plan)
}
