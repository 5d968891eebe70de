//! Reading a plan's text.
ghost use Rattle.std.specs.Prelude.{◌≡◌, ◌↔◌, ℕ, List, IfOk, OnErr, Err, Some, None};
ghost use Rattle.afr_plan.specs.Judging.{first_fault};
ghost use Rattle.afr_plan.specs.PlanOf.{plan_of};
ghost use Rattle.afr_plan.specs.Spells.{Spells};

use crate::draft::make_plan;
use crate::lines::{Lines, read_lines};
use afr_plan::{Plan, PlanFault, PlanStop};
use std::alloc::Global;

/// The plan that the whole lines of a text give.
fn plan_from<'t>(alloc: Global, text: &'t [u8], lines: &Lines<'t>) -> Result<Plan, PlanStop>
    ensures ok { IfOk result (λ plan. plan ≡ plan_of lines.now) }
    ensures err { OnErr result (result ≡ Err PlanStop.NoMemory) }
{
    let plan = make_plan(alloc, text, lines.spoken())?;
    Ok(plan)
}

/// The plan that a text spells, or the first line that breaks a rule and the lowest rule that it
/// breaks. Memory is linear in the length of the text and of the data that it stands for. So is time,
/// but for chance: the tables hash many words under a digest of the whole text, by which nobody can
/// choose them.
pub fn read_plan(alloc: Global, bytes: &[u8]) -> Result<Plan, PlanStop>
    ensures read { IfOk result (λ plan. Spells bytes.now plan) }
    ensures refused { (fault : PlanFault) → result ≡ Err (PlanStop.Refused fault)
        → (first_fault bytes.now ≡ Some fault) × ((plan : Plan) → Spells bytes.now plan → ⊥) }
{
    match read_lines(alloc, bytes) {
        Ok(lines) => plan_from(alloc, bytes, &lines),
        Err(stop) => Err(stop),
    }
}

/// A text spells at most one plan, and it spells one exactly where no line breaks a rule.
pub fn one_plan_for_a_text()
    ensures same { (bytes : List ℕ) (plan other : Plan) → Spells bytes plan → Spells bytes other → plan ≡ other }
    ensures found { (bytes : List ℕ) → first_fault bytes ≡ None → (plan : Plan) × Spells bytes plan }
    ensures none { (bytes : List ℕ) (plan : Plan) → Spells bytes plan → first_fault bytes ≡ None }
{}
