//! What is found of a trace, and a trace that ends otherwise.
ghost use Rattle.std.specs.Prelude.{◌≤◌, IfOk, length};

use afr_plan::Plan;
use afr_plan_read::read_plan;
use afr_trace_check::{CheckStop, Finding, check};
use std::alloc::Global;
use std::test::Fail;

/// The plan of a text, of as many bricks and actors as a volume may have.
fn plan_of(alloc: Global, text: &str) -> Result<Plan, Fail>
    ensures shape { IfOk result (λ p. p.shape.n ≤ 5) }
    ensures clients { IfOk result (λ p. length p.clients ≤ 16) }
    ensures healers { IfOk result (λ p. length p.healers ≤ 3) }
{
    let Ok(plan) = read_plan(alloc, text.as_bytes()) else {
        return Err("the plan isn't read".into());
    };
    if plan.shape.n <= 5 && plan.clients.len() <= 16 && plan.healers.len() <= 3 {
        return Ok(plan);
    }
    Err("the plan is too large".into())
}

/// Whether this is found of the trace of a plan.
pub fn is_found(
    alloc: Global,
    plan: &str,
    trace: &str,
    want: Result<Finding, CheckStop>,
) -> Result<bool, Fail> {
    let plan = plan_of(alloc, plan)?;
    Ok(check(alloc, &plan, trace.as_bytes()) == want)
}

/// The first lines of a text, and another line behind them.
pub fn ended_by(alloc: Global, text: &str, lines: usize, last: &str) -> Result<String, Fail> {
    let mut out = String::new(alloc);
    let mut position: usize = 0;
    for line in text.lines() {
        if position < lines {
            out.push_str(line)?;
            out.push_str("\n")?;
        }
        position = position.saturating_add(1);
    }
    out.push_str(last)?;
    out.push_str("\n")?;
    Ok(out)
}
