//! The steps of a log.
ghost use Rattle.std.specs.Prelude.{◌≡◌, ◌++◌, ◌<◌, ◌^◌, OnOk, Some, length, map, slice_get};
ghost use Rattle.afr_image.specs.Steps.{step_of, steps_bytes};
ghost use Rattle.afr_image.specs.Logs.{HasShortActors};
ghost use Rattle.afr_lines.specs.declared.line.Line.{Line};

use crate::frame::STEP;
use crate::step::{Step, asked_step, step_of, told_step};
use crate::steps::push_step;
use afr_base::NoMemory;
use afr_lines::{Request, Told};
use afr_log::Log;

/// Adds the bytes of the steps of all lines, the oldest first. Room for them is made first.
pub(crate) fn push_lines(out: &mut Vec<u8>, log: &Log) -> Result<(), NoMemory>
    requires few { length log.now.items < 2 ^ 32 }
    requires short { HasShortActors log.now.items }
    ensures ok { OnOk result (out.new.items ≡ out.old.items ++ steps_bytes (map step_of log.now.items)) }
{
    out.try_reserve(STEP * log.len())?;
    for at in 0..log.len() {
        push_step(out, step_at(log, at));
    }
    Ok(())
}

/// The step of the line at a place, counted from the oldest. No line is made of a packed request.
pub fn step_at(log: &Log, at: usize) -> Step
    requires there { at < length log.now.items }
    requires short { HasShortActors log.now.items }
    ensures { (line : Line) → slice_get log.now.items at ≡ Some line → result ≡ step_of line }
{
    let mut request = Request::Index;
    let mut told = Told::Done;
    match log.asked_at(at, &mut request, &mut told) {
        Some(by) => asked_step(by.actor, by.brick, &told, by.took),
        None => kept_step(log, at),
    }
}

/// The same of whatever line. It stands apart, so that only lines which are no packed requests pay for its frame.
#[inline(never)]
fn kept_step(log: &Log, at: usize) -> Step
    requires there { at < length log.now.items }
    requires short { HasShortActors log.now.items }
    ensures { (line : Line) → slice_get log.now.items at ≡ Some line → result ≡ step_of line }
{
    match log.told_at(at) {
        Some(told) => told_step(told),
        None => shown_step(log, at),
    }
}

/// The same of a request that the log keeps as it is. It stands apart, so that only such requests pay for a frame with a line.
#[inline(never)]
fn shown_step(log: &Log, at: usize) -> Step
    requires there { at < length log.now.items }
    requires short { HasShortActors log.now.items }
    ensures { (line : Line) → slice_get log.now.items at ≡ Some line → result ≡ step_of line }
{
    match log.line(at) {
        Some(shown) => step_of(shown.as_line()),
        None => unreachable!(),
    }
}
