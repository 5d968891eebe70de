//! The attempts on an object, and what they say of a value in one of its cells.
ghost use Rattle.std.specs.Prelude.{◌≡◌, ◌≤◌, ◌+◌, ◌<◌, ◌++◌, Some, ℕ, IfOk, OnOk, length, reverse, slice_get};
ghost use Rattle.std.specs.Option.{option_copied};
ghost use Rattle.afr_lines.specs.Log.{change_at};
ghost use Rattle.afr_trace_safe.specs.Attempts.{attempt_at, attempts_on, end_of, is_on, stands, verdict};
ghost use Rattle.afr_trace_safe.specs.Seen.{cell_of, value_seen};
ghost use Rattle.afr_trace_safe.specs.declared.attempts.Attempt.{Attempt as AnAttempt};

use crate::acknowledged::is_acknowledged;
use crate::cell::{Cell, Value, leaves, same_value, touches};
use afr_base::{Gfid, NoMemory};
use afr_lines::{Line, change_at};
use afr_object::{Change, object_of};
use std::alloc::Global;

/// Where an attempt begins, and whether it is acknowledged.
#[derive(Clone, Copy)]
pub(crate) struct Attempt {
    pub position: usize,
    pub acknowledged: bool,
}

// ---- the attempts on an object

fn is_on(change: Option<&Change>, g: Gfid) -> bool
    ensures { result ≡ is_on g (option_copied change.entry) }
{
    match change {
        Some(change) => object_of(change) == g,
        None => false,
    }
}

fn keep_attempt(
    found: &mut Vec<Attempt>,
    log: &[Line],
    position: usize,
    g: Gfid,
) -> Result<(), NoMemory>
    ensures { OnOk result (found.new.items ≡ found.old.items ++ attempt_at (reverse log.now) g position) }
{
    if !is_on(change_at(log, position), g) {
        return Ok(());
    }
    let acknowledged = is_acknowledged(log, position);
    found.push(Attempt {
        position,
        acknowledged,
    })?;
    Ok(())
}

/// The attempts on an object, the newest first. It walks over the log once, and from each of them to the End line after it.
pub(crate) fn attempts_on(alloc: Global, log: &[Line], g: Gfid) -> Result<Vec<Attempt>, NoMemory>
    ensures { IfOk result (λ found. found.items ≡ attempts_on (reverse log.now) g (length log.now)) }
{
    let mut found = Vec::new(alloc);
    for i in 0..log.len() {
        keep_attempt(&mut found, log, log.len() - 1 - i, g)?;
    }
    Ok(found)
}

// ---- what they say of a value

fn verdict_of(change: &Change, acknowledged: bool, cell: Cell, value: Value) -> Option<bool>
    ensures { result ≡ verdict (Some change.now) acknowledged (cell_of cell) (value_seen value) }
{
    if !touches(change, cell) {
        return None;
    }
    if same_value(value, leaves(change, cell)) {
        return Some(true);
    }
    if acknowledged { Some(false) } else { None }
}

fn verdict(log: &[Line], attempt: Attempt, cell: Cell, value: Value) -> Option<bool>
    ensures { result ≡ verdict (change_at attempt.position (reverse log.now)) attempt.acknowledged (cell_of cell) (value_seen value) }
{
    match change_at(log, attempt.position) {
        Some(change) => verdict_of(change, attempt.acknowledged, cell, value),
        None => None,
    }
}

/// Whether a value stands by some attempts, the newest first, or as the opening one. It ends at the first that says something of it.
pub(crate) fn stands(
    log: &[Line],
    attempts: &[Attempt],
    cell: Cell,
    value: Value,
    opening: bool,
) -> bool
    ensures { result ≡ stands (reverse log.now) (cell_of cell) (value_seen value) opening attempts.now }
{
    for attempt in attempts {
        if let Some(answer) = verdict(log, *attempt, cell, value) {
            return answer;
        }
    }
    opening
}

// ---- how far they go

fn write_end(change: &Change) -> usize
    ensures { result ≡ end_of (Some change.now) }
{
    match change {
        Change::Write { at, bytes, .. } => *at as usize + bytes.as_slice().len(),
        _ => 0,
    }
}

fn end_of(change: Option<&Change>) -> usize
    ensures { result ≡ end_of (option_copied change.entry) }
{
    match change {
        Some(change) => write_end(change),
        None => 0,
    }
}

/// A place that no attempt's write goes past, and that isn't before another.
pub(crate) fn furthest(log: &[Line], attempts: &[Attempt], least: usize) -> usize
    ensures least { least ≤ result }
    ensures each { (j : ℕ) (x : AnAttempt) → slice_get attempts.now j ≡ Some x → end_of (change_at x.position (reverse log.now)) ≤ result }
{
    let mut end = least;
    for attempt in attempts {
        end = end.max(end_of(change_at(log, attempt.position)));
    }
    end
}
