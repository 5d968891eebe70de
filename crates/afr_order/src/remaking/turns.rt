//! A plan with other turns.
ghost use Rattle.std.specs.Prelude.{◌≡◌, ◌≤◌};
ghost use Rattle.afr_law_runnable.specs.Runnable.{IsRunnable};

use afr_plan::Plan;

/// The plan of an image with the turns of its replay in place of its own.
pub fn with_turns(mut plan: Plan, turns: u32) -> Plan
    requires runnable { IsRunnable plan }
    requires some { 1 ≤ turns }
    requires few { turns ≤ 4000000 }
    ensures plan { result ≡ record plan { turns = turns } }
    ensures runnable { IsRunnable result }
{
    plan.turns = turns;
    plan
}
