//! The rows of lines: two numbers of texts for each, and all but its position is told by them.
ghost use Rattle.std.specs.Prelude.{◌≡◌, ◌<◌, [], All, IfOk, OnOk, Some, slice_get};
ghost use Rattle.afr_lines.specs.declared.line.Line.{Line};
ghost use Rattle.afr_log.specs.Log.{asked_line};
ghost use Rattle.afr_report_trace.specs.Texts.{AreAskers, Grows, IsRow, IsSpelled, unplaced_text};

use crate::askers::{push_asker, push_brick};
use crate::endings::ending_of;
use crate::lines::push_rest;
use crate::spelled::{Page, number_asked};
use crate::texts::{Texts, number_of};
use afr_base::{ActorId, BrickId, MOST_BRICKS, NoMemory};
use afr_lines::{Request, Told};
use afr_log::{Asker, Log};
use afr_plan::Plan;
use std::alloc::Global;

/// As many as there are of actors up to 19 and five bricks.
const ASKERS: usize = 100;

/// The numbers of the texts of a line: who asks which brick, and the rest. Of a line that is no packed request the first is
/// that of a space.
#[derive(Clone, Copy)]
pub(crate) struct Row {
    pub(crate) asker: u8,
    pub(crate) rest: u32,
}

/// Adds the first texts, of all actors and bricks.
pub(crate) fn add_askers(alloc: Global, texts: &mut Texts) -> Result<(), NoMemory>
    requires { texts.old ≡ [] }
    ensures { OnOk result (AreAskers texts.new) }
{
    let mut words = String::new(alloc);
    for place in 0..ASKERS {
        words.clear();
        push_asker(&mut words, ActorId((place / 5) as u16))?;
        push_brick(&mut words, BrickId((place % 5) as u8))?;
        texts.push(words.as_bytes())?;
    }
    texts.push(b" ")?;
    Ok(())
}

/// The row of the line at a position. A packed request is unpacked into these places, and no line is made of it.
pub(crate) fn row_at(
    texts: &mut Texts,
    page: &mut Page,
    plan: &Plan,
    position: usize,
    log: &Log,
    request: &mut Request,
    told: &mut Told,
) -> Result<Row, NoMemory>
    requires askers { AreAskers texts.old }
    requires places { All (IsSpelled plan.now texts.old) page.old.places.items }
    ensures row { IfOk result (λ row. (line : Line) → slice_get log.now.items position ≡ Some line → IsRow texts.new row.asker row.rest (unplaced_text plan.now line)) }
    ensures grown { OnOk result (Grows texts.old texts.new) }
    ensures places { OnOk result (All (IsSpelled plan.now texts.new) page.new.places.items) }
{
    match log.asked_at(position, request, told) {
        Some(by) if by.actor.0 < 20 && by.brick.0 < MOST_BRICKS => {
            row_asked(texts, page, plan, by, request, told)
        }
        _ => row_kept(texts, page, plan, position, log),
    }
}

/// The row of a request.
fn row_asked(
    texts: &mut Texts,
    page: &mut Page,
    plan: &Plan,
    by: Asker,
    request: &Request,
    told: &Told,
) -> Result<Row, NoMemory>
    requires actor { by.actor.0 < 20 }
    requires brick { by.brick.0 < 5 }
    requires askers { AreAskers texts.old }
    requires places { All (IsSpelled plan.now texts.old) page.old.places.items }
    ensures row { IfOk result (λ row. IsRow texts.new row.asker row.rest (unplaced_text plan.now (asked_line by request.now told.now))) }
    ensures grown { OnOk result (Grows texts.old texts.new) }
    ensures places { OnOk result (All (IsSpelled plan.now texts.new) page.new.places.items) }
{
    let ending = ending_of(told, by.took);
    let rest = number_asked(texts, page, plan, by.actor, request, ending)?;
    let asker = (by.actor.0 * 5) as u8 + by.brick.0;
    Ok(Row { asker, rest })
}

/// The row of whatever line. It stands apart, so that only lines which are no packed requests pay for a frame with a line.
#[inline(never)]
fn row_kept(
    texts: &mut Texts,
    page: &mut Page,
    plan: &Plan,
    position: usize,
    log: &Log,
) -> Result<Row, NoMemory>
    requires askers { AreAskers texts.old }
    requires places { All (IsSpelled plan.now texts.old) page.old.places.items }
    ensures row { IfOk result (λ row. (line : Line) → slice_get log.now.items position ≡ Some line → IsRow texts.new row.asker row.rest (unplaced_text plan.now line)) }
    ensures grown { OnOk result (Grows texts.old texts.new) }
    ensures places { OnOk result (All (IsSpelled plan.now texts.new) page.new.places.items) }
{
    page.words.clear();
    if let Some(shown) = log.line(position) {
        push_rest(&mut page.words, plan, shown.as_line())?;
    }
    let rest = number_of(texts, page.slots.as_mut_slice(), page.words.as_bytes())?;
    Ok(Row {
        asker: ASKERS as u8,
        rest,
    })
}
