//! What a log's trace is made of, gathered before a byte of it is written: this takes all the memory, and is far less than the
//! text where lines are alike.
ghost use Rattle.std.specs.Prelude.{◌≡◌, ◌+◌, ◌≤◌, [], IfOk, length, reverse, vec_capacity};
ghost use Rattle.afr_report_trace.specs.Lines.{trace_of};
ghost use Rattle.afr_report_trace.specs.Texts.{AreRows, text_to};

use crate::rows::{add_askers, row_at};
use crate::spelled::Page;
use crate::texts::{Texts, longest};
use afr_base::NoMemory;
use afr_lines::{Request, Told};
use afr_log::Log;
use afr_plan::Plan;
use std::alloc::Global;
use std::marker::Model;

/// What a buffer holds when it is written.
pub(crate) const FULL: usize = 65536;

/// No position has more digits.
const DIGITS: usize = 40;

/// A trace, ready to be written: the numbers of each line's texts, and a buffer with room for the longest line.
#[derive(Drop)]
pub struct Gathered {
    pub(crate) texts: Texts,
    pub(crate) askers: Vec<u8>,
    pub(crate) rests: Vec<u32>,
    pub(crate) buffer: Vec<u8>,
}

impl Model for Gathered {
    ghost use Rattle.std.specs.Prelude.{◌≡◌, List, ℕ, [], length, vec_capacity};

    ghost Value = { List ℕ };

    ghost use Rattle.afr_report_trace.specs.Texts.{AreRows, HasRoom, text_to};

    ghost view = { λ g. text_to g.texts g.askers.items g.rests.items (length g.rests.items) };

    ghost invariant = { λ g. AreRows g.texts g.askers.items g.rests.items × HasRoom g.texts (vec_capacity g.buffer) × (g.buffer.items ≡ []) };
}

/// Gathers the trace of a plan's log, the oldest line first. Its value is the whole text. Of each line it keeps five bytes, and
/// each text that isn't found among those before it.
pub fn gather_trace(alloc: Global, plan: &Plan, log: &Log) -> Result<Gathered, NoMemory>
    ensures { IfOk result (λ gathered. gathered ≡ trace_of plan.now (reverse log.now.items)) }
{
    let mut texts = Texts::new(alloc)?;
    add_askers(alloc, &mut texts)?;
    let mut page = Page::new(alloc, &mut texts, plan)?;
    let mut askers = Vec::with_capacity(alloc, log.len())?;
    let mut rests = Vec::with_capacity(alloc, log.len())?;
    let mut request = Request::Index;
    let mut told = Told::Done;
    for position in 0..log.len() {
        let row = row_at(
            &mut texts,
            &mut page,
            plan,
            position,
            log,
            &mut request,
            &mut told,
        )?;
        askers.push(row.asker)?;
        rests.push(row.rest)?;
    }
    buffered(alloc, texts, askers, rests)
}

/// These rows, with a buffer.
fn buffered(
    alloc: Global,
    texts: Texts,
    askers: Vec<u8>,
    rests: Vec<u32>,
) -> Result<Gathered, NoMemory>
    requires { AreRows texts askers.items rests.items }
    ensures { IfOk result (λ gathered. gathered ≡ text_to texts askers.items rests.items (length rests.items)) }
{
    let buffer = buffer_for(alloc, longest(&texts))?;
    Ok(Gathered {
        texts,
        askers,
        rests,
        buffer,
    })
}

/// A buffer that has room for two texts of a length behind what doesn't fill it.
fn buffer_for(alloc: Global, longest: usize) -> Result<Vec<u8>, NoMemory>
    ensures empty { IfOk result (λ buffer. buffer.items ≡ []) }
    ensures room { IfOk result (λ buffer. 65576 + longest + longest ≤ vec_capacity buffer) }
{
    let Some(one) = longest.checked_add(FULL + DIGITS) else {
        return Err(NoMemory);
    };
    let Some(both) = one.checked_add(longest) else {
        return Err(NoMemory);
    };
    Ok(Vec::with_capacity(alloc, both)?)
}
