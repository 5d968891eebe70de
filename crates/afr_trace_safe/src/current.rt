//! Whether cells of an object are current on a brick.
ghost use Rattle.std.specs.Prelude.{◌≡◌, ◌↔◌, ◌<◌, [], true, Some, IfOk, length, reverse, option_map};
ghost use Rattle.std.specs.Option.{option_copied};
ghost use Rattle.afr_lines.specs.Log.{change_at};
ghost use Rattle.afr_model.specs.Attempts.{IsCurrent};
ghost use Rattle.afr_model.specs.Cells.{Byte, object_of_cell};
ghost use Rattle.afr_model.specs.Tables.{content_in};
ghost use Rattle.afr_object.specs.Tables.{copy_at};
ghost use Rattle.afr_trace_tables.specs.Plain.{plain_tables};
ghost use Rattle.afr_trace_safe.specs.Attempts.{attempts_on, is_on};
ghost use Rattle.afr_trace_safe.specs.Covered.{AreBytesCurrent, AreKeysCurrent, AreNamesCurrent, AreTouchedCurrent, IsTouchedCurrent, touched_in};
ghost use Rattle.afr_trace_safe.specs.Seen.{cell_of};
ghost use Rattle.afr_trace_tally.specs.Tally.{IsTally};

use crate::attempts::{Attempt, stands};
use crate::cell::{Cell, Value, byte_at, same_value};
use crate::value::value_on;
use afr_base::{BrickId, Gfid, KeyId, Kind, NameId, NoMemory, ValueId};
use afr_lines::{Line, change_at};
use afr_object::{Change, Entry};
use afr_plan::Plan;
use afr_trace_tally::Tally;

/// Whether what a brick has in a cell was left by the last acknowledged attempt on it, or by a later one.
fn is_current(
    first: &Tally,
    tally: &Tally,
    plan: &Plan,
    log: &[Line],
    attempts: &[Attempt],
    g: Gfid,
    b: BrickId,
    cell: Cell,
) -> Result<bool, NoMemory>
    requires first { IsTally plan.now [] first.now }
    requires tally { IsTally plan.now (reverse log.now) tally.now }
    requires attempts { attempts.now ≡ attempts_on (reverse log.now) g (length log.now) }
    requires brick { b.0 < 5 }
    requires object { object_of_cell (cell_of cell) ≡ g }
    ensures { IfOk result (λ yes. (yes ≡ true) ↔ IsCurrent plan.now (reverse log.now) b.0 (cell_of cell)) }
{
    let _g = g;
    let value = value_on(tally.tables(plan, log, b), cell)?;
    let opening = value_on(first.tables(plan, &log[..0], b), cell)?;
    let same = same_value(value, opening);
    Ok(stands(log, attempts, cell, value, same))
}

// ---- bytes

/// Whether the byte at a place of a file is current, given the bytes that a brick has of it and those that it had at the start.
fn is_byte_current(
    plan: &Plan,
    log: &[Line],
    attempts: &[Attempt],
    g: Gfid,
    b: BrickId,
    here: &[u8],
    opened: &[u8],
    place: usize,
) -> bool
    requires attempts { attempts.now ≡ attempts_on (reverse log.now) g (length log.now) }
    requires here { here.now ≡ content_in (copy_at g ((plain_tables plan.now (reverse log.now)).now b.0)) }
    requires opened { opened.now ≡ content_in (copy_at g ((plain_tables plan.now []).now b.0)) }
    ensures { (result ≡ true) ↔ IsCurrent plan.now (reverse log.now) b.0 (Byte g place) }
{
    let _plan = plan;
    let _b = b;
    let value = Value::Byte(byte_at(here, place));
    let opening = Value::Byte(byte_at(opened, place));
    let same = same_value(value, opening);
    stands(log, attempts, Cell::Byte(g, place), value, same)
}

/// Whether the bytes of a file below an end are current.
pub(crate) fn are_bytes_current(
    plan: &Plan,
    log: &[Line],
    attempts: &[Attempt],
    g: Gfid,
    b: BrickId,
    here: &[u8],
    opened: &[u8],
    end: usize,
) -> bool
    requires attempts { attempts.now ≡ attempts_on (reverse log.now) g (length log.now) }
    requires here { here.now ≡ content_in (copy_at g ((plain_tables plan.now (reverse log.now)).now b.0)) }
    requires opened { opened.now ≡ content_in (copy_at g ((plain_tables plan.now []).now b.0)) }
    ensures { (result ≡ true) ↔ AreBytesCurrent plan.now (reverse log.now) b.0 g end }
{
    for i in 0..end {
        if !is_byte_current(plan, log, attempts, g, b, here, opened, i) {
            return false;
        }
    }
    true
}

// ---- attributes and names

/// Whether the attributes of some keys are.
pub(crate) fn are_keys_current(
    first: &Tally,
    tally: &Tally,
    plan: &Plan,
    log: &[Line],
    attempts: &[Attempt],
    g: Gfid,
    b: BrickId,
    attrs: &[(KeyId, ValueId)],
) -> Result<bool, NoMemory>
    requires first { IsTally plan.now [] first.now }
    requires tally { IsTally plan.now (reverse log.now) tally.now }
    requires attempts { attempts.now ≡ attempts_on (reverse log.now) g (length log.now) }
    requires brick { b.0 < 5 }
    ensures { IfOk result (λ yes. (yes ≡ true) ↔ AreKeysCurrent plan.now (reverse log.now) b.0 g attrs.now) }
{
    for x in attrs {
        let yes = is_current(first, tally, plan, log, attempts, g, b, Cell::Attr(g, x.0))?;
        if !yes {
            return Ok(false);
        }
    }
    Ok(true)
}

/// Whether some names are.
pub(crate) fn are_names_current(
    first: &Tally,
    tally: &Tally,
    plan: &Plan,
    log: &[Line],
    attempts: &[Attempt],
    g: Gfid,
    b: BrickId,
    names: &[(NameId, Entry)],
) -> Result<bool, NoMemory>
    requires first { IsTally plan.now [] first.now }
    requires tally { IsTally plan.now (reverse log.now) tally.now }
    requires attempts { attempts.now ≡ attempts_on (reverse log.now) g (length log.now) }
    requires brick { b.0 < 5 }
    ensures { IfOk result (λ yes. (yes ≡ true) ↔ AreNamesCurrent plan.now (reverse log.now) b.0 g names.now) }
{
    for x in names {
        let yes = is_current(first, tally, plan, log, attempts, g, b, Cell::Name(g, x.0))?;
        if !yes {
            return Ok(false);
        }
    }
    Ok(true)
}

// ---- what attempts touch

fn touched_key(change: &Change) -> Option<Cell>
    ensures { option_map cell_of result ≡ touched_in Kind.Attrs (Some change.now) }
{
    match change {
        Change::SetAttr { gfid, key, .. } => Some(Cell::Attr(*gfid, *key)),
        Change::Write { .. } => None,
        Change::Cut { .. } => None,
        Change::Make { .. } => None,
        Change::Remove { .. } => None,
    }
}

fn touched_name(change: &Change) -> Option<Cell>
    ensures { option_map cell_of result ≡ touched_in Kind.Names (Some change.now) }
{
    match change {
        Change::Make { dir, name, .. } => Some(Cell::Name(*dir, *name)),
        Change::Remove { dir, name, .. } => Some(Cell::Name(*dir, *name)),
        Change::Write { .. } => None,
        Change::Cut { .. } => None,
        Change::SetAttr { .. } => None,
    }
}

fn touched_by(kind: Kind, change: &Change) -> Option<Cell>
    ensures { option_map cell_of result ≡ touched_in kind (Some change.now) }
{
    match kind {
        Kind::Bytes => None,
        Kind::Attrs => touched_key(change),
        Kind::Names => touched_name(change),
    }
}

/// The attribute or name that a change touches, where it is of this kind.
fn touched_in(kind: Kind, change: Option<&Change>) -> Option<Cell>
    ensures { option_map cell_of result ≡ touched_in kind (option_copied change.entry) }
{
    match change {
        Some(change) => touched_by(kind, change),
        None => None,
    }
}

fn is_touched_current(
    first: &Tally,
    tally: &Tally,
    plan: &Plan,
    log: &[Line],
    attempts: &[Attempt],
    g: Gfid,
    b: BrickId,
    kind: Kind,
    attempt: Attempt,
) -> Result<bool, NoMemory>
    requires first { IsTally plan.now [] first.now }
    requires tally { IsTally plan.now (reverse log.now) tally.now }
    requires attempts { attempts.now ≡ attempts_on (reverse log.now) g (length log.now) }
    requires brick { b.0 < 5 }
    requires on { is_on g (change_at attempt.position (reverse log.now)) ≡ true }
    ensures { IfOk result (λ yes. (yes ≡ true) ↔ IsTouchedCurrent plan.now (reverse log.now) b.0 kind attempt) }
{
    let touched = touched_in(kind, change_at(log, attempt.position));
    match touched {
        Some(cell) => is_current(first, tally, plan, log, attempts, g, b, cell),
        None => Ok(true),
    }
}

/// Whether what each attempt touches of a kind is.
pub(crate) fn are_touched_current(
    first: &Tally,
    tally: &Tally,
    plan: &Plan,
    log: &[Line],
    attempts: &[Attempt],
    g: Gfid,
    b: BrickId,
    kind: Kind,
) -> Result<bool, NoMemory>
    requires first { IsTally plan.now [] first.now }
    requires tally { IsTally plan.now (reverse log.now) tally.now }
    requires attempts { attempts.now ≡ attempts_on (reverse log.now) g (length log.now) }
    requires brick { b.0 < 5 }
    ensures { IfOk result (λ yes. (yes ≡ true) ↔ AreTouchedCurrent plan.now (reverse log.now) b.0 kind attempts.now) }
{
    for attempt in attempts {
        let yes = is_touched_current(first, tally, plan, log, attempts, g, b, kind, *attempt)?;
        if !yes {
            return Ok(false);
        }
    }
    Ok(true)
}
