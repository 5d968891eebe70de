//! What one line does to bricks, links and sessions.
ghost use Rattle.std.specs.Prelude.{◌≡◌, ◌&&◌, ◌||◌, not, Bool, List, ℕ};
ghost use Rattle.afr_base.specs.Bricks.{member};
ghost use Rattle.afr_lines.specs.Places.{is_heal_lock, next_place, opens};
ghost use Rattle.afr_lines.specs.Work.{is_of};
ghost use Rattle.afr_lines.specs.declared.answer.Told.{Told};
ghost use Rattle.afr_model.specs.Report.{started_after, started_by};
ghost use Rattle.afr_model.specs.Sessions.{ends_session, event_ends, linked_after, linked_by};
ghost use Rattle.afr_trace_tally.specs.Seen.{place_seen};

use afr_base::{ActorId, BrickId};
use afr_lines::{Domain, Event, Line, Request, Told, is_of};

/// Where an actor stands in its works.
#[derive(Clone, Copy)]
pub enum Place {
    /// Its next line is the first of a work.
    Fresh,
    /// It has asked for an index alone.
    Indexed,
    /// Its last line ended a heal.
    Between,
    Within,
}

/// What one more line of the actor makes of it.
pub(crate) fn next_place(place: Place, line: &Line) -> Place
    ensures { place_seen result ≡ next_place (place_seen place) line.now }
{
    match line {
        Line::Ask { request, .. } => place_asked(place, request),
        Line::Begin { .. } => Place::Within,
        Line::HealBegin { .. } => Place::Within,
        Line::End { .. } => Place::Fresh,
        Line::HealEnd { .. } => Place::Between,
        Line::Event { .. } => Place::Within,
    }
}

/// After one more request: a work may begin with one for an index.
fn place_asked(place: Place, request: &Request) -> Place
    ensures { (a : ActorId) (b : BrickId) (told : Told) (took : Bool) → place_seen result ≡ next_place (place_seen place) (Line.Ask a b request.now told took) }
{
    match (place, request) {
        (Place::Fresh, Request::Index) => Place::Indexed,
        _ => Place::Within,
    }
}

fn is_heal_lock(line: &Line) -> bool
    ensures { result ≡ is_heal_lock line.now }
{
    match line {
        Line::Ask {
            request: Request::Lock {
                domain: Domain::Heal,
                ..
            },
            ..
        } => true,
        _ => false,
    }
}

/// Whether a line of the actor opens sessions: it is the first of a work or of a heal.
pub(crate) fn opens(place: Place, line: &Line) -> bool
    ensures { result ≡ opens (place_seen place) line.now }
{
    match place {
        Place::Fresh => true,
        Place::Indexed => is_heal_lock(line),
        Place::Between => is_heal_lock(line),
        Place::Within => false,
    }
}

/// Whether the link of an actor and a brick is up after a line.
pub(crate) fn linked_by(linked: bool, a: ActorId, b: BrickId, line: &Line) -> bool
    ensures { result ≡ linked_by a.0 b.0 line.now linked }
{
    match line {
        Line::Event { event } => linked_after(linked, a, b, *event),
        _ => linked,
    }
}

fn linked_after(linked: bool, a: ActorId, b: BrickId, event: Event) -> bool
    ensures { result ≡ linked_after a.0 b.0 event linked }
{
    match event {
        Event::Cut(x, y) => { if x == a && y == b { false } else { linked } }
        Event::Join(x, y) => { if x == a && y == b { true } else { linked } }
        Event::Stop(_) => linked,
        Event::Start(_) => linked,
        Event::Kill(_) => linked,
    }
}

/// Whether a brick is started after a line.
pub(crate) fn started_by(started: bool, b: BrickId, line: &Line) -> bool
    ensures { (s : List ℕ) → started ≡ member s b.0 → result ≡ member (started_by line.now s) b.0 }
{
    match line {
        Line::Event { event } => started_after(started, b, *event),
        _ => started,
    }
}

#[tactic(auto, using(afr_base::specs::SetLemmas::member_added, afr_base::specs::SetLemmas::member_removed))]
fn started_after(started: bool, b: BrickId, event: Event) -> bool
    ensures { (s : List ℕ) → started ≡ member s b.0 → result ≡ member (started_after event s) b.0 }
{
    match event {
        Event::Stop(y) => y != b && started,
        Event::Start(y) => y == b || started,
        Event::Cut(_, _) => started,
        Event::Join(_, _) => started,
        Event::Kill(_) => started,
    }
}

/// Whether a line ends the session: an event, or an answer of the brick that was lost.
pub(crate) fn ends_session(a: ActorId, b: BrickId, line: &Line) -> bool
    ensures { result ≡ ends_session a.0 b.0 line.now }
{
    match line {
        Line::Ask {
            actor,
            brick,
            told: Told::NotConnected,
            took,
            ..
        } => *actor == a && *brick == b && *took,
        Line::Event { event } => event_ends(a, b, *event),
        _ => false,
    }
}

fn event_ends(a: ActorId, b: BrickId, event: Event) -> bool
    ensures { result ≡ event_ends a.0 b.0 event }
{
    match event {
        Event::Stop(y) => y == b,
        Event::Cut(x, y) => x == a && y == b,
        Event::Kill(x) => x == a,
        Event::Start(_) => false,
        Event::Join(_, _) => false,
    }
}

/// Whether the line opens the actor's session with a brick, by where the actor stands, and by whether the brick is started and
/// linked to it.
pub(crate) fn opens_with(a: ActorId, line: &Line, place: Place, started: bool, linked: bool) -> bool
    ensures { result ≡ (is_of a.0 line.now && opens (place_seen place) line.now && started && linked) }
{
    is_of(a, line) && opens(place, line) && started && linked
}

/// Whether a session is live after a line, by whether it was live before and whether the line opens it.
pub(crate) fn joined_by(joined: bool, opened: bool, a: ActorId, b: BrickId, line: &Line) -> bool
    ensures { result ≡ ((joined || opened) && not (ends_session a.0 b.0 line.now)) }
{
    (joined || opened) && !ends_session(a, b, line)
}
