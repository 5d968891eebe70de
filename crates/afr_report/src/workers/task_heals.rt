//! The heals of tasks that have ended, in rising gfid.
ghost use Rattle.std.specs.Prelude.{◌≡◌, ◌==◌, ◌&&◌, ◌||◌, ◌++◌, IfOk, OnOk, Some, flat_map, map, reverse, slice_get, string_bytes};
ghost use Rattle.std.specs.Option.{option_map};
ghost use Rattle.afr_lines.specs.Work.{ended};
ghost use Rattle.afr_lines.specs.declared.line.Line.{Line};
ghost use Rattle.afr_log.specs.Log.{told_line};
ghost use Rattle.afr_model.specs.ReportHealers.{heal_line};
ghost use Rattle.afr_report.specs.Workers.{heals_text, in_order_by, is_task_heal, object_of, shown_if, task_heals};

use crate::heals::push_heal_line;
use crate::workers::tally::{SECOND, THIRD, Tally, ends_at};
use afr_base::{ActorId, NoMemory};
use afr_lines::Line;
use afr_log::{Log, ToldLine};
use std::alloc::Global;

/// Adds the lines of the heals of ended tasks that found something to do. It takes O(k log k) comparisons of k heals, and one
/// walk over the log.
pub fn push_task_heals(out: &mut String, log: &Log, all: Tally) -> Result<(), NoMemory>
    requires second { all.second ≡ ended 18 (reverse log.now.items) }
    requires third { all.third ≡ ended 19 (reverse log.now.items) }
    ensures ok { OnOk result (string_bytes out.new ≡ string_bytes out.old ++ heals_text (reverse log.now.items)) }
{
    let heals = sorted_heals(*out.allocator(), log, all)?;
    push_heals(out, heals.as_slice())
}

fn push_heals(out: &mut String, heals: &[ToldLine<'_>]) -> Result<(), NoMemory>
    ensures ok { OnOk result (string_bytes out.new ≡ string_bytes out.old ++ flat_map heal_line (map told_line heals.now)) }
{
    for told in heals {
        push_heal_line(out, *told)?;
    }
    Ok(())
}

/// The heals in rising gfid; those of one gfid stay in the order of the log.
fn sorted_heals<'a>(alloc: Global, log: &'a Log, all: Tally) -> Result<Vec<ToldLine<'a>>, NoMemory>
    ensures ok { IfOk result (λ heals. map told_line heals.items ≡ in_order_by object_of (task_heals all.second all.third (reverse log.now.items))) }
{
    let mut heals = gather_heals(alloc, log, all)?;
    heals.sort_by_key(|told| object_of(*told))?;
    Ok(heals)
}

/// The heals, the oldest first.
fn gather_heals<'a>(alloc: Global, log: &'a Log, all: Tally) -> Result<Vec<ToldLine<'a>>, NoMemory>
    ensures ok { IfOk result (λ heals. map told_line heals.items ≡ task_heals all.second all.third (reverse log.now.items)) }
{
    let mut heals = Vec::new(alloc);
    let mut second = 0;
    let mut third = 0;
    for at in 0..log.len() {
        if let Some(told) = task_heal_at(log, at, second < all.second, third < all.third) {
            heals.push(told)?;
        }
        second += ends_at(log, at, SECOND);
        third += ends_at(log, at, THIRD);
    }
    Ok(heals)
}

/// The line at this place, where it ends a heal of a worker, and may be one of this worker.
fn task_heal_at(log: &Log, at: usize, second: bool, third: bool) -> Option<ToldLine<'_>>
    ensures { (line : Line) → slice_get log.now.items at ≡ Some line → option_map told_line result ≡ shown_if (is_task_heal second third line) line }
{
    let told = log.told_at(at)?;
    if is_task_heal(told, second, third) {
        Some(told)
    } else {
        None
    }
}

fn is_task_heal(told: ToldLine<'_>, second: bool, third: bool) -> bool
    ensures { result ≡ is_task_heal second third (told_line told.entry) }
{
    match told {
        ToldLine::Kept(Line::HealEnd { actor, .. }) => is_of_task(*actor, second, third),
        ToldLine::Kept(_) => false,
        ToldLine::HealBegun { .. } => false,
        ToldLine::HealEnded { actor, .. } => is_of_task(actor, second, third),
    }
}

/// Whether an actor is the second healer or the third, and may be the one.
fn is_of_task(a: ActorId, second: bool, third: bool) -> bool
    ensures { result ≡ (((a.0 == 18) && second) || ((a.0 == 19) && third)) }
{
    (a.0 == SECOND && second) || (a.0 == THIRD && third)
}

/// The object of a heal.
fn object_of(told: ToldLine<'_>) -> u128
    ensures { result ≡ object_of (told_line told.entry) }
{
    match told {
        ToldLine::Kept(Line::HealEnd { gfid, .. }) => gfid.0,
        ToldLine::Kept(_) => 0,
        ToldLine::HealBegun { .. } => 0,
        ToldLine::HealEnded { gfid, .. } => gfid.0,
    }
}
