//! Whether all cells of an object that have to be current on a brick are.
ghost use Rattle.std.specs.Prelude.{◌≡◌, ◌↔◌, ◌<◌, ◌≤◌, ◌&&◌, [], true, IfOk, length, reverse};
ghost use Rattle.afr_trace_safe.specs.Attempts.{attempts_on};
ghost use Rattle.afr_trace_safe.specs.Judged.{AllCurrent, IsBrickSafe, IsKindSafe};
ghost use Rattle.afr_trace_tally.specs.Tally.{IsTally};

use crate::attempts::{Attempt, furthest};
use crate::copies::is_judged;
use crate::current::{are_bytes_current, are_keys_current, are_names_current, are_touched_current};
use crate::value::{attrs_of, bytes_of, names_of};
use afr_base::{BrickId, Gfid, Kind, NoMemory};
use afr_lines::Line;
use afr_plan::Plan;
use afr_trace_tally::Tally;
use std::alloc::Global;

/// Whether all bytes of a file are current: those past its end and past each write are 0 everywhere, and a cut leaves 0.
fn all_bytes_current(
    alloc: Global,
    first: &Tally,
    tally: &Tally,
    plan: &Plan,
    log: &[Line],
    attempts: &[Attempt],
    g: Gfid,
    b: BrickId,
) -> Result<bool, NoMemory>
    requires first { IsTally plan.now [] first.now }
    requires tally { IsTally plan.now (reverse log.now) tally.now }
    requires attempts { attempts.now ≡ attempts_on (reverse log.now) g (length log.now) }
    requires brick { b.0 < 5 }
    ensures { IfOk result (λ yes. (yes ≡ true) ↔ AllCurrent plan.now (reverse log.now) b.0 g Kind.Bytes) }
{
    let bytes = bytes_of(alloc, tally.tables(plan, log, b), g)?;
    let opening = bytes_of(alloc, first.tables(plan, &log[..0], b), g)?;
    let here = bytes.as_slice();
    let opened = opening.as_slice();
    let end = furthest(log, attempts, here.len().max(opened.len()));
    let yes = are_bytes_current(plan, log, attempts, g, b, here, opened, end);
    Ok(yes)
}

fn all_three(one: bool, two: bool, three: bool) -> bool
    ensures { result ≡ (one && two && three) }
{
    one && two && three
}

/// Whether all attributes of an object are current. One that isn't there, wasn't there at the start and wasn't touched is.
fn all_attrs_current(
    alloc: Global,
    first: &Tally,
    tally: &Tally,
    plan: &Plan,
    log: &[Line],
    attempts: &[Attempt],
    g: Gfid,
    b: BrickId,
) -> Result<bool, NoMemory>
    requires first { IsTally plan.now [] first.now }
    requires tally { IsTally plan.now (reverse log.now) tally.now }
    requires attempts { attempts.now ≡ attempts_on (reverse log.now) g (length log.now) }
    requires brick { b.0 < 5 }
    ensures { IfOk result (λ yes. (yes ≡ true) ↔ AllCurrent plan.now (reverse log.now) b.0 g Kind.Attrs) }
{
    let here = attrs_of(alloc, tally.tables(plan, log, b), g)?;
    let opened = attrs_of(alloc, first.tables(plan, &log[..0], b), g)?;
    let one = are_keys_current(first, tally, plan, log, attempts, g, b, here.as_slice())?;
    let two = are_keys_current(first, tally, plan, log, attempts, g, b, opened.as_slice())?;
    let three = are_touched_current(first, tally, plan, log, attempts, g, b, Kind::Attrs)?;
    Ok(all_three(one, two, three))
}

/// Whether all names of a directory are.
fn all_names_current(
    alloc: Global,
    first: &Tally,
    tally: &Tally,
    plan: &Plan,
    log: &[Line],
    attempts: &[Attempt],
    g: Gfid,
    b: BrickId,
) -> Result<bool, NoMemory>
    requires first { IsTally plan.now [] first.now }
    requires tally { IsTally plan.now (reverse log.now) tally.now }
    requires attempts { attempts.now ≡ attempts_on (reverse log.now) g (length log.now) }
    requires brick { b.0 < 5 }
    ensures { IfOk result (λ yes. (yes ≡ true) ↔ AllCurrent plan.now (reverse log.now) b.0 g Kind.Names) }
{
    let here = names_of(alloc, tally.tables(plan, log, b), g)?;
    let opened = names_of(alloc, first.tables(plan, &log[..0], b), g)?;
    let one = are_names_current(first, tally, plan, log, attempts, g, b, here.as_slice())?;
    let two = are_names_current(first, tally, plan, log, attempts, g, b, opened.as_slice())?;
    let three = are_touched_current(first, tally, plan, log, attempts, g, b, Kind::Names)?;
    Ok(all_three(one, two, three))
}

fn all_current(
    alloc: Global,
    first: &Tally,
    tally: &Tally,
    plan: &Plan,
    log: &[Line],
    attempts: &[Attempt],
    g: Gfid,
    b: BrickId,
    kind: Kind,
) -> Result<bool, NoMemory>
    requires first { IsTally plan.now [] first.now }
    requires tally { IsTally plan.now (reverse log.now) tally.now }
    requires attempts { attempts.now ≡ attempts_on (reverse log.now) g (length log.now) }
    requires brick { b.0 < 5 }
    ensures { IfOk result (λ yes. (yes ≡ true) ↔ AllCurrent plan.now (reverse log.now) b.0 g kind) }
{
    match kind {
        Kind::Bytes => all_bytes_current(alloc, first, tally, plan, log, attempts, g, b),
        Kind::Attrs => all_attrs_current(alloc, first, tally, plan, log, attempts, g, b),
        Kind::Names => all_names_current(alloc, first, tally, plan, log, attempts, g, b),
    }
}

fn is_kind_safe(
    alloc: Global,
    first: &Tally,
    tally: &Tally,
    plan: &Plan,
    log: &[Line],
    attempts: &[Attempt],
    g: Gfid,
    b: BrickId,
    kind: Kind,
) -> Result<bool, NoMemory>
    requires shape { plan.now.shape.n ≤ 5 }
    requires first { IsTally plan.now [] first.now }
    requires tally { IsTally plan.now (reverse log.now) tally.now }
    requires few { length log.now < 2147483648 }
    requires attempts { attempts.now ≡ attempts_on (reverse log.now) g (length log.now) }
    requires brick { b.0 < 5 }
    ensures { IfOk result (λ yes. (yes ≡ true) ↔ IsKindSafe plan.now (reverse log.now) g b.0 kind) }
{
    let judged = is_judged(tally, plan, log, g, kind, b);
    if !judged {
        return Ok(true);
    }
    let yes = all_current(alloc, first, tally, plan, log, attempts, g, b, kind)?;
    Ok(yes)
}

/// Whether a brick's copy of an object is current in each kind in which it has to be.
pub(crate) fn is_brick_safe(
    alloc: Global,
    first: &Tally,
    tally: &Tally,
    plan: &Plan,
    log: &[Line],
    attempts: &[Attempt],
    g: Gfid,
    b: BrickId,
) -> Result<bool, NoMemory>
    requires shape { plan.now.shape.n ≤ 5 }
    requires first { IsTally plan.now [] first.now }
    requires tally { IsTally plan.now (reverse log.now) tally.now }
    requires few { length log.now < 2147483648 }
    requires attempts { attempts.now ≡ attempts_on (reverse log.now) g (length log.now) }
    requires brick { b.0 < 5 }
    ensures { IfOk result (λ yes. (yes ≡ true) ↔ IsBrickSafe plan.now (reverse log.now) g b.0) }
{
    let one = is_kind_safe(alloc, first, tally, plan, log, attempts, g, b, Kind::Bytes)?;
    let two = is_kind_safe(alloc, first, tally, plan, log, attempts, g, b, Kind::Attrs)?;
    let three = is_kind_safe(alloc, first, tally, plan, log, attempts, g, b, Kind::Names)?;
    Ok(all_three(one, two, three))
}
