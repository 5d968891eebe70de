//! Which copies have to be current: those that are good in some majority.
ghost use Rattle.std.specs.Prelude.{◌≡◌, ◌<◌, ◌≤◌, ◌*◌, ◌&&◌, not, nat_lt, length, reverse, if◌then◌else◌};
ghost use Rattle.afr_base.specs.Majority.{count_below};
ghost use Rattle.afr_model.specs.Safe.{accuses};
ghost use Rattle.afr_trace_safe.specs.Judged.{is_judged};
ghost use Rattle.afr_trace_tally.specs.Tally.{IsTally};

use afr_base::{BrickId, Gfid, Kind};
use afr_lines::Line;
use afr_plan::Plan;
use afr_trace_tally::Tally;

/// Whether brick `x` has operations that brick `c` missed.
fn accuses(
    tally: &Tally,
    plan: &Plan,
    log: &[Line],
    g: Gfid,
    kind: Kind,
    x: BrickId,
    c: BrickId,
) -> bool
    requires tally { IsTally plan.now (reverse log.now) tally.now }
    requires few { length log.now < 2147483648 }
    requires accuser { x.0 < 5 }
    requires accused { c.0 < 5 }
    ensures { result ≡ accuses plan.now (reverse log.now) g kind x.0 c.0 }
{
    let marks = tally.marks(plan, log, x, g, kind);
    0 < marks.pending[c.0 as usize]
}

fn one_unless(flag: bool) -> u8
    ensures value { result ≡ (if not flag then 1 else 0) }
    ensures small { result ≤ 1 }
{
    if flag { 0 } else { 1 }
}

/// How many bricks don't accuse one.
fn count_quiet(tally: &Tally, plan: &Plan, log: &[Line], g: Gfid, kind: Kind, b: BrickId) -> u8
    requires shape { plan.now.shape.n ≤ 5 }
    requires tally { IsTally plan.now (reverse log.now) tally.now }
    requires few { length log.now < 2147483648 }
    requires brick { b.0 < 5 }
    ensures value { result ≡ count_below plan.now.shape.n (λ x. not (accuses plan.now (reverse log.now) g kind x b.0)) }
    ensures small { result ≤ 5 }
{
    let mut count = 0;
    for x in 0..plan.shape.n {
        let accused = accuses(tally, plan, log, g, kind, BrickId(x), b);
        count += one_unless(accused);
    }
    count
}

fn is_most(n: u8, count: u8) -> bool
    requires { count ≤ 5 }
    ensures { result ≡ nat_lt n (2 * count) }
{
    n < 2 * count
}

fn are_all(there: bool, kept: bool, quiet: bool, most: bool) -> bool
    ensures { result ≡ (there && kept && quiet && most) }
{
    there && kept && quiet && most
}

/// Whether a copy is good in some majority.
pub(crate) fn is_judged(
    tally: &Tally,
    plan: &Plan,
    log: &[Line],
    g: Gfid,
    kind: Kind,
    b: BrickId,
) -> bool
    requires shape { plan.now.shape.n ≤ 5 }
    requires tally { IsTally plan.now (reverse log.now) tally.now }
    requires few { length log.now < 2147483648 }
    requires brick { b.0 < 5 }
    ensures { result ≡ is_judged plan.now (reverse log.now) g kind b.0 }
{
    let there = tally.has_object(plan, log, b, g);
    let kept = plan.shape.keeps(kind, b);
    let accused = accuses(tally, plan, log, g, kind, b, b);
    let most = is_most(plan.shape.n, count_quiet(tally, plan, log, g, kind, b));
    are_all(there, kept, !accused, most)
}
