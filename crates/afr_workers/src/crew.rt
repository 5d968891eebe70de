//! How far a crawl has come, beside its volume.
ghost use Rattle.std.specs.Prelude.{◌≡◌, ◌+◌, ◌==◌, ◌||◌, ◌<◌, ◌^◌, if◌then◌else◌, Some, reverse, slice_get};
ghost use Rattle.afr_lines.specs.declared.line.Line.{Line};
ghost use Rattle.afr_lines.specs.Work.{is_killed, kills};
ghost use Rattle.afr_log.specs.Log.{told_line};
ghost use Rattle.afr_workers.specs.Crew.{noted};

use crate::next::Next;
use afr_base::{ActorId, FIRST_HEALER};
use afr_lines::{Event, Line};
use afr_log::{Log, ToldLine};

/// The second healer of a plan, a worker where the healers crawl.
pub(crate) const SECOND: u16 = FIRST_HEALER + 1;

/// The third healer.
pub(crate) const THIRD: u16 = FIRST_HEALER + 2;

/// The place of the next item that no worker was given, by the crawler's round and by that round's list, and which workers
/// were killed.
#[derive(Clone, Copy)]
pub(crate) struct Crew {
    pub(crate) round: u32,
    pub(crate) at: usize,
    pub(crate) second_killed: bool,
    pub(crate) third_killed: bool,
}

impl Crew {
    /// No item was given yet; who was killed stands in the log.
    pub(crate) fn of_log(log: &Log) -> Crew
        ensures { result ≡ record { round = 0; at = 0; second_killed = is_killed 18 (reverse log.now.items); third_killed = is_killed 19 (reverse log.now.items) } }
    {
        Crew {
            round: 0,
            at: 0,
            second_killed: was_killed(log, SECOND),
            third_killed: was_killed(log, THIRD),
        }
    }

    /// An event has come: whom it kills is noted.
    pub(crate) fn note(&mut self, event: Event)
        ensures { self.new ≡ noted event self.old }
    {
        if let Event::Kill(ActorId(a)) = event {
            self.second_killed = a == SECOND || self.second_killed;
            self.third_killed = a == THIRD || self.third_killed;
        }
    }

    /// Whether this worker was killed.
    pub(crate) fn is_dead(&self, a: ActorId) -> bool
        ensures { result ≡ (if a.0 == 18 then self.now.second_killed else self.now.third_killed) }
    {
        if a.0 == SECOND {
            self.second_killed
        } else {
            self.third_killed
        }
    }

    /// An item was given: the next one comes behind it.
    pub(crate) fn give(&mut self, next: Next)
        requires { next.at + 1 < 2 ^ 64 }
        ensures { self.new ≡ record self.old { round = next.round; at = next.at + 1 } }
    {
        self.round = next.round;
        self.at = next.at + 1;
    }
}

/// Whether a line of the log kills this actor.
fn was_killed(log: &Log, a: u16) -> bool
    ensures { result ≡ is_killed a (reverse log.now.items) }
{
    let mut killed = false;
    for at in 0..log.len() {
        killed = is_killed_by(log, at, a, killed);
    }
    killed
}

/// Whether the line at this place kills the actor, or one before it did.
fn is_killed_by(log: &Log, at: usize, a: u16, before: bool) -> bool
    ensures { (line : Line) → slice_get log.now.items at ≡ Some line → result ≡ (kills a line || before) }
{
    kills_at(log, at, a) || before
}

/// Whether the line at this place kills the actor.
fn kills_at(log: &Log, at: usize, a: u16) -> bool
    ensures { (line : Line) → slice_get log.now.items at ≡ Some line → result ≡ kills a line }
{
    match log.told_at(at) {
        Some(told) => kills(a, told),
        None => false,
    }
}

/// Whether the line that is told kills this actor.
fn kills(a: u16, told: ToldLine<'_>) -> bool
    ensures { result ≡ kills a (told_line told.entry) }
{
    match told {
        ToldLine::Kept(line) => kills_here(a, line),
        ToldLine::HealBegun { .. } => false,
        ToldLine::HealEnded { .. } => false,
    }
}

/// Whether the line kills this actor.
fn kills_here(a: u16, line: &Line) -> bool
    ensures { result ≡ kills a line.now }
{
    match line {
        Line::Event {
            event: Event::Kill(killed),
        } => killed.0 == a,
        _ => false,
    }
}
