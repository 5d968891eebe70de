//! The line that a text stands for, by the tally of the lines before it.
ghost use Rattle.std.specs.Prelude.{◌≡◌, ◌↔◌, ◌<◌, ◌≤◌, true, reverse, length, IfOk};
ghost use Rattle.afr_trace_build.specs.Filling.{fill};
ghost use Rattle.afr_trace_check.specs.Works.{AsksFive};
ghost use Rattle.afr_trace_tally.specs.Tally.{IsTally};

use crate::showing::shown_by;
use afr_base::NoMemory;
use afr_lines::Line;
use afr_plan::Plan;
use afr_trace_build::{Filled, fill};
use afr_trace_read::{Doing, TraceLine};
use afr_trace_tally::Tally;
use std::alloc::Global;

fn asks_five(line: &TraceLine) -> bool
    ensures { (result ≡ true) ↔ AsksFive line.now }
{
    match line {
        TraceLine::Event { .. } => true,
        TraceLine::Of { doing, .. } => match doing {
            Doing::Ask { brick, .. } => brick.0 < 5,
            Doing::HealBegin { .. } => true,
            Doing::Begin { .. } => true,
            Doing::HealEnd { .. } => true,
            Doing::End { .. } => true,
        },
    }
}

/// The line that a text stands for after the lines of the tally. It takes as many steps as the log has lines, and one for each byte
/// and name of the text and of what was listed last.
pub fn filled(
    alloc: Global,
    tally: &Tally,
    plan: &Plan,
    log: &[Line],
    line: &TraceLine,
    contents: &[u8],
) -> Result<Filled, NoMemory>
    requires tally { IsTally plan.now (reverse log.now) tally.now }
    requires shape { plan.now.shape.n ≤ 5 }
    requires few { length log.now < 2147483648 }
    ensures { IfOk result (λ f. f ≡ fill plan.now (reverse log.now) (line.now, contents.now)) }
{
    if !asks_five(line) {
        return Ok(Filled::NoLine);
    }
    let shown = shown_by(alloc, tally, plan, log, line)?;
    fill(alloc, plan, log, &shown, line, contents)
}
