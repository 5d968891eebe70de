//! Whether a line kills an actor, and whether it is an event.
ghost use Rattle.std.specs.Prelude.{◌≡◌};
ghost use Rattle.afr_lines.specs.Work.{is_event, kills};

use afr_base::ActorId;
use afr_lines::{Event, Line};

pub(crate) fn kills(a: ActorId, line: &Line) -> bool
    ensures { result ≡ kills a.0 line.now }
{
    match line {
        Line::Event {
            event: Event::Kill(actor),
        } => *actor == a,
        _ => false,
    }
}

pub(crate) fn is_event(line: &Line) -> bool
    ensures { result ≡ is_event line.now }
{
    match line {
        Line::Event { .. } => true,
        _ => false,
    }
}
