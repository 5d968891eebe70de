//! The bricks that the events of a log leave started.
ghost use Rattle.std.specs.Prelude.{◌≡◌, ◌≤◌, None, Some, reverse, slice_get};
ghost use Rattle.afr_lines.specs.declared.line.Line.{Line};
ghost use Rattle.afr_log.specs.Log.{told_line, unasked};
ghost use Rattle.afr_model.specs.Report.{started_after, started_bricks, started_by};
ghost use Rattle.afr_report.specs.BrickLines.{AreBrickLines, IsBrickEvent, IsBrickLine};

use crate::own::told_line_at;
use afr_base::BrickSet;
use afr_lines::{Event, Line};
use afr_log::{Log, ToldLine};

/// The started bricks of a volume of `n`: all of them at first.
pub fn started(n: u8, log: &Log) -> BrickSet
    requires few { n ≤ 5 }
    requires bricks { AreBrickLines (reverse log.now.items) }
    ensures { result ≡ started_bricks n (reverse log.now.items) }
{
    let mut bricks = BrickSet::all(n);
    for at in 0..log.len() {
        bricks = started_at(bricks, log, at);
    }
    bricks
}

/// What the line at a position makes of them: a request stops and starts none.
fn started_at(bricks: BrickSet, log: &Log, at: usize) -> BrickSet
    requires { AreBrickLines (reverse log.now.items) }
    ensures asked { unasked (slice_get log.now.items at) ≡ None → result ≡ bricks }
    ensures line { (line : Line) → unasked (slice_get log.now.items at) ≡ Some line → result ≡ started_by line bricks }
{
    match told_line_at(log, at) {
        Some(told) => started_told(bricks, told),
        None => bricks,
    }
}

fn started_told(bricks: BrickSet, told: ToldLine<'_>) -> BrickSet
    requires { IsBrickLine (told_line told) }
    ensures { result ≡ started_by (told_line told.entry) bricks }
{
    match told {
        ToldLine::Kept(line) => started_by(bricks, line),
        ToldLine::HealBegun { .. } => bricks,
        ToldLine::HealEnded { .. } => bricks,
    }
}

fn started_by(bricks: BrickSet, line: &Line) -> BrickSet
    requires { IsBrickLine line.now }
    ensures { result ≡ started_by line.now bricks }
{
    match line {
        Line::Event { event } => started_after(bricks, *event),
        _ => bricks,
    }
}

fn started_after(bricks: BrickSet, event: Event) -> BrickSet
    requires { IsBrickEvent event }
    ensures { result ≡ started_after event bricks }
{
    match event {
        Event::Stop(brick) => bricks.without(brick),
        Event::Start(brick) => bricks.with(brick),
        _ => bricks,
    }
}
