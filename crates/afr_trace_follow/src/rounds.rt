//! Whether a line of a healer keeps to its round.
ghost use Rattle.std.specs.Prelude.{◌≡◌, ◌↔◌, ◌+◌, ◌<◌, ◌≤◌, ◌==◌, ◌^◌, ◌∷◌, Bool, List, None, Some, false, true, is_some, length, reverse, if◌then◌else◌};
ghost use Rattle.afr_base.specs.declared.ids.ActorId.{ActorId};
ghost use Rattle.afr_base.specs.declared.ids.BrickId.{BrickId};
ghost use Rattle.afr_lines.specs.Areas.{object_of_area};
ghost use Rattle.afr_lines.specs.Work.{Work, is_end, is_of, work};
ghost use Rattle.afr_lines.specs.declared.answer.Told.{Told};
ghost use Rattle.afr_lines.specs.declared.line.Line.{Line};
ghost use Rattle.afr_lines.specs.declared.request.Request.{Request};
ghost use Rattle.afr_model.specs.Rounds.{IsOfHeal, due_in, kind_within, object_healed, plus_healed};
ghost use Rattle.afr_trace_follow.specs.Healing.{IsHealing, is_index, nth_heal, object_locked};
ghost use Rattle.afr_trace_follow.specs.Turns.{AsksIndex, HealsInTurn, KeepsToList};

use crate::facts::{both, same_brick, same_gfid};
use crate::parts::work_start;
use afr_base::{ActorId, BrickId, Gfid, Kind, What, same_kind};
use afr_lines::{Area, Domain, Line, Request, is_end, is_of};

// ---- the heals of a list

fn kind_within(what: What) -> Kind
    ensures { result ≡ kind_within what }
{
    match what {
        What::File => Kind::Bytes,
        What::Dir => Kind::Names,
    }
}

fn kind_at(first: bool, what: What) -> Kind
    ensures { result ≡ (if first then Kind.Attrs else kind_within what) }
{
    if first {
        Kind::Attrs
    } else {
        kind_within(what)
    }
}

/// The heal of a list that comes after so many: for each object its attributes, then its bytes or its names.
fn nth_heal(list: &[(Gfid, What)], healed: usize) -> Option<(Gfid, Kind)>
    ensures { result ≡ nth_heal list.now healed }
{
    match list.get(healed / 2) {
        Some((object, what)) => Some((*object, kind_at(healed % 2 == 0, *what))),
        None => None,
    }
}

// ---- where a round stands

/// Whether the present work has a line, and how many heals of it have ended.
#[derive(Clone, Copy)]
struct Healing {
    begun: bool,
    healed: usize,
}

fn plus_healed(line: &Line, healed: usize) -> usize
    requires { healed < 2 ^ 62 }
    ensures { result ≡ plus_healed line.now healed }
{
    match line {
        Line::HealEnd { .. } => healed + 1,
        _ => healed,
    }
}

fn healed_more(a: ActorId, line: &Line, healed: usize) -> usize
    requires { healed < 2 ^ 62 }
    ensures { result ≡ (if is_of a.0 line.now then (if is_end line.now then 0 else plus_healed line.now healed) else healed) }
{
    if is_of(a, line) {
        if is_end(line) {
            0
        } else {
            plus_healed(line, healed)
        }
    } else {
        healed
    }
}

fn begun_more(a: ActorId, line: &Line, begun: bool) -> bool
    ensures { result ≡ (if is_of a.0 line.now then (if is_end line.now then false else true) else begun) }
{
    if is_of(a, line) { !is_end(line) } else { begun }
}

fn healing_more(a: ActorId, line: &Line, position: usize, was: Healing) -> Healing
    requires position { position < 2 ^ 61 }
    requires few { was.healed ≤ position }
    ensures { (older : List Line) → position ≡ length older → IsHealing a.0 older was → IsHealing a.0 (line.now ∷ older) result }
{
    Healing {
        begun: begun_more(a, line, was.begun),
        healed: healed_more(a, line, was.healed),
    }
}

fn heals_made(log: &[Line], a: ActorId) -> Healing
    requires { length log.now < 2147483648 }
    ensures { IsHealing a.0 (reverse log.now) result }
{
    let start = work_start(log, a);
    let mut healing = Healing {
        begun: false,
        healed: 0,
    };
    for position in start..log.len() {
        healing = healing_more(a, &log[position], position, healing);
    }
    healing
}

// ---- a line

fn is_index(request: &Request) -> bool
    ensures { result ≡ is_index request.now }
{
    match request {
        Request::Index => true,
        _ => false,
    }
}

/// The object of an area.
pub fn object_of_area(area: &Area) -> Gfid
    ensures { result ≡ object_of_area area.now }
{
    match area {
        Area::Range { gfid, .. } => *gfid,
        Area::Name { gfid, .. } => *gfid,
    }
}

/// The object that a request locks against other heals.
fn object_locked(request: &Request) -> Option<Gfid>
    ensures { result ≡ object_locked request.now }
{
    match request {
        Request::Lock {
            domain: Domain::Heal,
            area,
        } => Some(object_of_area(area)),
        _ => None,
    }
}

/// Whether the heal that is due is this one.
fn is_due(due: Option<(Gfid, Kind)>, g: Gfid, kind: Kind) -> bool
    ensures { (result ≡ true) ↔ (due ≡ Some (g, kind)) }
{
    match due {
        Some((object, within)) => both(same_gfid(object, g), same_kind(within, kind)),
        None => false,
    }
}

/// Whether the heal that is due is of this object.
fn is_of_heal(due: Option<(Gfid, Kind)>, g: Gfid) -> bool
    ensures { (list : List (Gfid × What)) (w : Work) (asked : Request) → due ≡ due_in list w → object_healed asked ≡ Some g → (result ≡ true) ↔ IsOfHeal list asked w }
{
    match due {
        Some((object, _)) => same_gfid(object, g),
        None => false,
    }
}

fn is_left(due: Option<(Gfid, Kind)>) -> bool
    ensures { (result ≡ true) ↔ (is_some due ≡ true) }
{
    due.is_some()
}

fn is_nothing(due: Option<(Gfid, Kind)>) -> bool
    ensures { (result ≡ true) ↔ (due ≡ None) }
{
    match due {
        Some(_) => false,
        None => true,
    }
}

/// Whether a request asks for the index of this brick.
fn asks_index(b: BrickId, brick: BrickId, request: &Request) -> bool
    ensures { (a : ActorId) (told : Told) (took : Bool) → (result ≡ true) ↔ AsksIndex b (Line.Ask a brick request.now told took) }
{
    if is_index(request) {
        same_brick(brick, b)
    } else {
        false
    }
}

/// Whether a line asks for the index of this brick.
fn begins_round(b: BrickId, line: &Line) -> bool
    ensures { (result ≡ true) ↔ AsksIndex b line.now }
{
    match line {
        Line::Ask { brick, request, .. } => asks_index(b, *brick, request),
        Line::HealBegin { .. } => false,
        Line::HealEnd { .. } => false,
        Line::End { .. } => false,
        Line::Begin { .. } => false,
        Line::Event { .. } => false,
    }
}

/// Whether a request is a Heal lock of the object that is due, or any other while a heal is left, but one for an index.
fn heals_on(due: Option<(Gfid, Kind)>, request: &Request) -> bool
    ensures { (list : List (Gfid × What)) (w : Work) (a : ActorId) (b : BrickId) (told : Told) (took : Bool) → due ≡ due_in list w → (result ≡ true) ↔ HealsInTurn list (Line.Ask a b request.now told took) w }
{
    if is_index(request) {
        false
    } else {
        match object_locked(request) {
            Some(g) => is_of_heal(due, g),
            None => is_left(due),
        }
    }
}

/// Whether a line goes on with a round: it locks, begins or ends the heal that is due, ends the round where none is left, or does
/// anything else but ask for an index again or begin an attempt.
fn heals_in_turn(due: Option<(Gfid, Kind)>, line: &Line) -> bool
    ensures { (list : List (Gfid × What)) (w : Work) → due ≡ due_in list w → (result ≡ true) ↔ HealsInTurn list line.now w }
{
    match line {
        Line::Ask { request, .. } => heals_on(due, request),
        Line::HealBegin { gfid, kind, .. } => is_due(due, *gfid, *kind),
        Line::HealEnd { gfid, kind, .. } => is_due(due, *gfid, *kind),
        Line::End { .. } => is_nothing(due),
        Line::Begin { .. } => false,
        Line::Event { .. } => is_left(due),
    }
}

/// Whether a line of the actor's present work keeps to a round over the index of a brick, which gave this list.
pub(crate) fn keeps_to_list(
    log: &[Line],
    a: ActorId,
    b: BrickId,
    list: &[(Gfid, What)],
    line: &Line,
) -> bool
    requires { length log.now < 2147483648 }
    ensures { (result ≡ true) ↔ KeepsToList b list.now line.now (work a.0 (reverse log.now)) }
{
    let at = heals_made(log, a);
    let begun = at.begun;
    if begun {
        heals_in_turn(nth_heal(list, at.healed), line)
    } else {
        begins_round(b, line)
    }
}
