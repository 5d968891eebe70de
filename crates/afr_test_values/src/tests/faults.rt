//! The faults that are planned for a brick.
ghost use Rattle.std.specs.Prelude.{◌≡◌};

use afr_base::NoMemory;
use afr_faults::FaultPlan;
use afr_lines::Fault;
use std::test::Fail;

/// Two faults are planned, one of them twice.
fn plan_faults(plan: &mut FaultPlan) -> Result<(), NoMemory>
    ensures { plan.new.requests ≡ plan.old.requests }
{
    plan.add(3, Fault::Lost)?;
    plan.add(2, Fault::Lost)?;
    plan.add(3, Fault::Fail)?;
    Ok(())
}

/// Whether four requests meet the faults of their counts.
fn meets_each(plan: &mut FaultPlan) -> bool
    requires { plan.old.requests ≡ 0 }
{
    plan.next_request().is_none()
        && plan.peek() == Some(Fault::Lost)
        && plan.next_request() == Some(Fault::Lost)
        && plan.next_request() == Some(Fault::Fail)
        && plan.next_request().is_none()
}

#[test]
fn each_request_has_the_fault_of_its_count(rt: HostRuntime) -> Result<(), Fail> {
    let mut plan = FaultPlan::new(rt.alloc());
    plan_faults(&mut plan).ok().ok_or("memory")?;
    let met = meets_each(&mut plan);
    assert!(rt; met);
    Ok(())
}
