//! What follows from the grammar for whoever runs plans.
ghost use Rattle.std.specs.Prelude.{ℕ, List};
ghost use Rattle.afr_plan.specs.declared.plan.Plan.{Plan};
ghost use Rattle.afr_plan.specs.Spells.{Spells};
ghost use Rattle.afr_law_runnable.specs.Runnable.{IsRunnable};

/// Every plan that a text spells can be run: its shape, its numbers and its scripts are within what
/// the volume takes, and its rounds, events and orders name bricks and actors of its own.
pub fn every_spelled_plan_runs()
    ensures runs { (bytes : List ℕ) (plan : Plan) → Spells bytes plan → IsRunnable plan }
{}
