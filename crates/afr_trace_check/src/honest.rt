//! Whether a line was told what its brick then gives.
ghost use Rattle.std.specs.Prelude.{◌≡◌, ◌↔◌, ◌&&◌, ◌<◌, ◌≤◌, suc, true, length, reverse};
ghost use Rattle.afr_model.specs.Honest.{fault_in, faulted, is_live, over_session, requests_to};
ghost use Rattle.afr_trace_check.specs.Honest.{IsHonestBySums, outcome_by_sums, told_by_sums};
ghost use Rattle.afr_trace_tally.specs.Tally.{AsksKnown, IsTally};

use crate::told::{same_told, told};
use afr_base::{ActorId, BrickId};
use afr_lines::{Fault, Line, Request, Told};
use afr_plan::{Plan, PlannedFault};
use afr_trace_tally::Tally;
use std::marker::Model;

/// What is told, and whether the brick carries the request out.
#[derive(Clone, Copy)]
pub(crate) struct RequestOutcome {
    told: Told,
    took: bool,
}

impl Model for RequestOutcome {
    ghost use Rattle.std.specs.Prelude.{refl};
    ghost use Rattle.afr_model.specs.Honest.{RequestOutcome as PlainOutcome};

    ghost Value = { PlainOutcome };

    ghost view = { λ o. record { told = o.told; took = o.took } };

    ghost inverse = { λ v. record { told = v.told; took = v.took } };

    ghost inverse_ok = { λ a h. refl };
}

/// Whether a line was told what its brick gives after the lines of the tally.
pub fn is_honest(tally: &Tally, plan: &Plan, log: &[Line], line: &Line) -> bool
    requires tally { IsTally plan.now (reverse log.now) tally.now }
    requires known { AsksKnown line.now }
    requires few { length log.now < 2147483648 }
    ensures { (result ≡ true) ↔ IsHonestBySums plan.now line.now (reverse log.now) }
{
    match line {
        Line::Ask {
            actor,
            brick,
            request,
            told,
            took,
        } => {
            let outcome = outcome_of(tally, plan, log, *actor, *brick, request, line);
            is_outcome(*told, *took, outcome)
        }
        Line::Begin { .. } => true,
        Line::HealBegin { .. } => true,
        Line::End { .. } => true,
        Line::HealEnd { .. } => true,
        Line::Event { .. } => true,
    }
}

fn is_outcome(told: Told, took: bool, outcome: RequestOutcome) -> bool
    ensures { (result ≡ true) ↔ ((record { told = told; took = took }) ≡ outcome) }
{
    let same = same_told(told, outcome.told);
    let likewise = same_flag(took, outcome.took);
    both(same, likewise)
}

pub(crate) fn both(one: bool, other: bool) -> bool
    ensures { result ≡ (one && other) }
{
    one && other
}

fn same_flag(one: bool, other: bool) -> bool
    ensures { (result ≡ true) ↔ (one ≡ other) }
{
    if one { other } else { !other }
}

fn outcome_of(
    tally: &Tally,
    plan: &Plan,
    log: &[Line],
    a: ActorId,
    b: BrickId,
    request: &Request,
    line: &Line,
) -> RequestOutcome
    requires tally { IsTally plan.now (reverse log.now) tally.now }
    requires actor { a.0 < 20 }
    requires brick { b.0 < 5 }
    requires few { length log.now < 2147483648 }
    ensures { result ≡ outcome_by_sums plan.now a b.0 request.now line.now (reverse log.now) }
{
    let live = is_live(tally, plan, log, a, b, line);
    let fault = planned_fault(tally, plan, log, b);
    let said = told(tally, plan, log, a, b, request);
    over_session(live, fault, said)
}

/// What the plan has for the next request to the brick.
fn planned_fault(tally: &Tally, plan: &Plan, log: &[Line], b: BrickId) -> Option<Fault>
    requires tally { IsTally plan.now (reverse log.now) tally.now }
    requires brick { b.0 < 5 }
    requires few { length log.now < 2147483648 }
    ensures { result ≡ fault_in plan.now.faults b.0 (suc (requests_to b.0 (reverse log.now))) }
{
    fault_in(plan.faults.as_slice(), b, tally.requests(plan, log, b) + 1)
}

/// Whether the session is live, be it by this line.
fn is_live(tally: &Tally, plan: &Plan, log: &[Line], a: ActorId, b: BrickId, line: &Line) -> bool
    requires tally { IsTally plan.now (reverse log.now) tally.now }
    requires actor { a.0 < 20 }
    requires brick { b.0 < 5 }
    ensures { result ≡ is_live plan.now a b.0 line.now (reverse log.now) }
{
    tally.is_joined(plan, log, a, b) || tally.opens_with(plan, log, a, b, line)
}

/// What the plan has for the k-th request to the brick.
fn fault_in(faults: &[PlannedFault], b: BrickId, k: u32) -> Option<Fault>
    ensures { result ≡ fault_in faults.now b.0 k }
{
    for planned in faults {
        if planned.brick == b && planned.at == k {
            return Some(planned.fault);
        }
    }
    None
}

/// What comes of a request, by the session and by the fault that the plan has for it.
fn over_session(live: bool, fault: Option<Fault>, said: Told) -> RequestOutcome
    ensures { result ≡ over_session live fault said }
{
    if live {
        faulted(fault, said)
    } else {
        RequestOutcome {
            told: Told::NotConnected,
            took: false,
        }
    }
}

fn faulted(fault: Option<Fault>, said: Told) -> RequestOutcome
    ensures { result ≡ faulted fault said }
{
    match fault {
        Some(Fault::Fail) => RequestOutcome {
            told: Told::Failed,
            took: false,
        },
        Some(Fault::Lost) => RequestOutcome {
            told: Told::NotConnected,
            took: true,
        },
        None => RequestOutcome {
            told: said,
            took: true,
        },
    }
}
