//! What stands in a log, and whose a line is.
ghost use Rattle.std.specs.Prelude.{◌≡◌, reverse, slice_get};
ghost use Rattle.std.specs.Option.{option_copied};
ghost use Rattle.afr_lines.specs.Log.{change_at, change_of, from_oldest};
ghost use Rattle.afr_lines.specs.Work.{ends_work, is_end, is_of};

use crate::line::Line;
use afr_base::ActorId;
use afr_object::Change;

/// The line at a position, where the log is that long.
pub fn line_at(log: &[Line], position: usize) -> Option<&Line>
    ensures { option_copied result ≡ from_oldest position (reverse log.now) }
{
    item_at(log, position)
}

fn item_at(log: &[Line], position: usize) -> Option<&Line>
    ensures { option_copied result ≡ slice_get log.now position }
{
    log.get(position)
}

/// The change of the attempt that begins at a position.
pub fn change_at(log: &[Line], position: usize) -> Option<&Change>
    ensures { option_copied result ≡ change_at position (reverse log.now) }
{
    match line_at(log, position) {
        Some(line) => change_of(line),
        None => None,
    }
}

/// The change of the attempt that a line begins.
pub fn change_of(line: &Line) -> Option<&Change>
    ensures { option_copied result ≡ change_of line.now }
{
    match line {
        Line::Begin { change, .. } => Some(change),
        _ => None,
    }
}

/// Whether the actor wrote the line. An event is nobody's.
pub fn is_of(a: ActorId, line: &Line) -> bool
    ensures { result ≡ is_of a.0 line.now }
{
    match line {
        Line::Ask { actor, .. } => *actor == a,
        Line::Begin { actor, .. } => *actor == a,
        Line::HealBegin { actor, .. } => *actor == a,
        Line::End { actor, .. } => *actor == a,
        Line::HealEnd { actor, .. } => *actor == a,
        Line::Event { .. } => false,
    }
}

/// Whether a line ends a work.
pub fn is_end(line: &Line) -> bool
    ensures { result ≡ is_end line.now }
{
    match line {
        Line::End { .. } => true,
        _ => false,
    }
}

/// Whether a line ends a work of the actor.
pub fn ends_work(a: ActorId, line: &Line) -> bool
    ensures { result ≡ ends_work a.0 line.now }
{
    match line {
        Line::End { actor, .. } => *actor == a,
        _ => false,
    }
}
