//! What the lines before a line show of what its text leaves out, by their tally.
ghost use Rattle.std.specs.Prelude.{◌≡◌, ◌&&◌, ◌||◌, ◌<◌, Bool, List, None, Some, reverse, length, IfOk, if◌then◌else◌};
ghost use Rattle.afr_base.specs.declared.ids.Gfid.{Gfid};
ghost use Rattle.afr_base.specs.declared.ids.Kind.{Kind};
ghost use Rattle.afr_base.specs.declared.ids.ActorId.{ActorId};
ghost use Rattle.afr_choice.specs.Looks.{no_looks, with_look, without_look};
ghost use Rattle.afr_lines.specs.Work.{is_end, is_of, work};
ghost use Rattle.afr_lines.specs.declared.line.Line.{Line};
ghost use Rattle.afr_model.specs.Healing.{is_border};
ghost use Rattle.afr_model.specs.Showing.{look_shows, looked_after, looked_by};
ghost use Rattle.afr_trace_build.specs.Shown.{ask_shown, last_listed, last_object, last_views, looked_object, shown_by, view_shown};
ghost use Rattle.afr_trace_check.specs.Works.{AsksFive, in_work, last_list, lists};
ghost use Rattle.afr_trace_tally.specs.Tally.{AreKnown, AsksKnown, IsTally};

use crate::told::view_shown;
use afr_base::{ActorId, BrickId, Gfid, NoMemory};
use afr_choice::Looked;
use afr_lines::{Domain, Line, Request, Told, is_end, is_of};
use afr_object::{List, NameList, View};
use afr_plan::Plan;
use afr_trace_build::Shown;
use afr_trace_follow::object_of_area;
use afr_trace_read::{Answered, Doing, Healed, SpelledReply, SpelledRequest, TraceLine};
use afr_trace_tally::Tally;
use std::alloc::Global;

// ---- the last looks of a work

/// Whether the present heal begins anew after the line.
fn is_border(line: &Line) -> bool
    ensures { result ≡ is_border line.now }
{
    match line {
        Line::HealEnd { .. } => true,
        Line::Ask {
            request: Request::Index,
            ..
        } => true,
        _ => false,
    }
}

fn looked_object(line: &Line, was: Option<Gfid>) -> Option<Gfid>
    ensures { result ≡ looked_object line.now was }
{
    match line {
        Line::Ask {
            request: Request::Look { gfid },
            ..
        } => Some(*gfid),
        _ => was,
    }
}

/// The object that was last looked at, one line more.
fn object_more(a: ActorId, heal: bool, line: &Line, was: Option<Gfid>) -> Option<Gfid>
    ensures { result ≡ (if is_of a.0 line.now then (if is_end line.now || (heal && is_border line.now) then None else looked_object line.now was) else was) }
{
    if is_of(a, line) {
        if is_end(line) || (heal && is_border(line)) {
            None
        } else {
            looked_object(line, was)
        }
    } else {
        was
    }
}

/// The object at which a work, or its present heal, has last looked.
fn last_object(log: &[Line], a: ActorId, heal: bool) -> Option<Gfid>
    ensures { result ≡ last_object (in_work heal (work a.0 (reverse log.now))) }
{
    let mut object = None;
    for position in 0..log.len() {
        object = object_more(a, heal, &log[position], object);
    }
    object
}

/// What the last looks at an object show, one line more.
fn looked_more(a: ActorId, heal: bool, g: Gfid, line: &Line, was: Looked) -> Looked
    requires { AsksKnown line.now }
    ensures { result ≡ (if is_of a.0 line.now then (if is_end line.now || (heal && is_border line.now) then no_looks else looked_after g line.now was) else was) }
{
    if is_of(a, line) {
        if is_end(line) || (heal && is_border(line)) {
            Looked::none()
        } else {
            looked_after(was, g, line)
        }
    } else {
        was
    }
}

/// What its last looks at an object show.
fn looked_by(log: &[Line], a: ActorId, heal: bool, g: Gfid) -> Looked
    requires { AreKnown (reverse log.now) }
    ensures { result ≡ looked_by g (in_work heal (work a.0 (reverse log.now))) }
{
    let mut looked = Looked::none();
    for position in 0..log.len() {
        looked = looked_more(a, heal, g, &log[position], looked);
    }
    looked
}

/// A look shows its view; a lock on the object makes the earlier looks void.
pub(crate) fn looked_after(looked: Looked, g: Gfid, line: &Line) -> Looked
    requires { AsksKnown line.now }
    ensures { result ≡ looked_after g line.now looked }
{
    match line {
        Line::Ask {
            brick,
            request,
            told,
            ..
        } => looked_asked(looked, g, *brick, request, *told),
        _ => looked,
    }
}

fn looked_asked(looked: Looked, g: Gfid, b: BrickId, request: &Request, told: Told) -> Looked
    requires { b.0 < 5 }
    ensures { (a : ActorId) (took : Bool) → result ≡ looked_after g (Line.Ask a b request.now told took) looked }
{
    match request {
        Request::Look { gfid } => {
            if *gfid == g {
                look_shows(b, told, looked)
            } else {
                looked
            }
        }
        Request::Lock {
            domain: Domain::Work,
            area,
        } => {
            if object_of_area(area) == g {
                Looked::none()
            } else {
                looked
            }
        }
        _ => looked,
    }
}

fn look_shows(b: BrickId, told: Told, looked: Looked) -> Looked
    requires { b.0 < 5 }
    ensures { result ≡ look_shows b.0 told looked }
{
    match told {
        Told::Seen(view) => noted(looked, b, Some(view)),
        Told::NoObject => noted(looked, b, None),
        _ => lost(looked, b),
    }
}

/// A brick showed what it has.
fn noted(looked: Looked, b: BrickId, view: Option<View>) -> Looked
    requires { b.0 < 5 }
    ensures { result ≡ with_look b.0 view looked }
{
    let mut looked = looked;
    looked.note(b, view);
    looked
}

/// A brick didn't show what it has.
fn lost(looked: Looked, b: BrickId) -> Looked
    requires { b.0 < 5 }
    ensures { result ≡ without_look b.0 looked }
{
    let mut looked = looked;
    looked.lose(b);
    looked
}

/// What the last looks of a work, or of its present heal, show.
fn last_views(log: &[Line], a: ActorId, heal: bool) -> [Option<View>; 5]
    requires { AreKnown (reverse log.now) }
    ensures { result ≡ last_views (in_work heal (work a.0 (reverse log.now))) }
{
    match last_object(log, a, heal) {
        Some(g) => looked_by(log, a, heal, g).views,
        None => Looked::none().views,
    }
}

// ---- the last list of an actor

fn lists(a: ActorId, line: &Line) -> bool
    ensures { result ≡ lists a.0 line.now }
{
    match line {
        Line::Ask {
            actor,
            request: Request::List { .. },
            ..
        } => *actor == a,
        _ => false,
    }
}

/// The position of the last line that lists, one line more.
fn list_more(a: ActorId, line: &Line, position: u32, was: Option<u32>) -> Option<u32>
    ensures { (older : List Line) → position ≡ length older → result ≡ (if lists a.0 line.now then Some (length older) else was) }
{
    if lists(a, line) { Some(position) } else { was }
}

/// The position of the last line of an actor that lists.
fn last_list(log: &[Line], a: ActorId) -> Option<u32>
    requires { length log.now < 2147483648 }
    ensures { result ≡ last_list a.0 (reverse log.now) }
{
    let mut found = None;
    for position in 0..log.len() {
        found = list_more(a, &log[position], position as u32, found);
    }
    found
}

/// The names that the last list of an actor showed.
fn last_listed(
    alloc: Global,
    tally: &Tally,
    plan: &Plan,
    log: &[Line],
    a: ActorId,
) -> Result<NameList, NoMemory>
    requires tally { IsTally plan.now (reverse log.now) tally.now }
    requires few { length log.now < 2147483648 }
    ensures { IfOk result (λ names. names ≡ last_listed plan.now a.0 (reverse log.now)) }
{
    match last_list(log, a) {
        Some(position) => tally.names_shown(alloc, plan, log, position),
        None => Ok(List::new(alloc)),
    }
}

// ---- what a line needs

fn ask_shown(
    tally: &Tally,
    plan: &Plan,
    log: &[Line],
    b: BrickId,
    asked: &SpelledRequest,
    answered: Answered,
) -> Shown
    requires tally { IsTally plan.now (reverse log.now) tally.now }
    requires brick { b.0 < 5 }
    requires few { length log.now < 2147483648 }
    ensures { result ≡ ask_shown plan.now (reverse log.now) b.0 asked.now answered }
{
    match (asked, answered) {
        (SpelledRequest::Look { gfid }, Answered::Seen) => {
            Shown::View(view_shown(tally, plan, log, b, *gfid))
        }
        (SpelledRequest::Copy { read, .. }, _) => { Shown::Bytes(tally.read_len(plan, log, *read)) }
        _ => Shown::Nothing,
    }
}

/// What the lines so far show of what the text of the next one leaves out.
pub fn shown_by(
    alloc: Global,
    tally: &Tally,
    plan: &Plan,
    log: &[Line],
    line: &TraceLine,
) -> Result<Shown, NoMemory>
    requires tally { IsTally plan.now (reverse log.now) tally.now }
    requires brick { AsksFive line.now }
    requires few { length log.now < 2147483648 }
    ensures { IfOk result (λ shown. shown ≡ shown_by plan.now (reverse log.now) line.now) }
{
    match line {
        TraceLine::Event { .. } => Ok(Shown::Nothing),
        TraceLine::Of { actor, doing } => done_shown(alloc, tally, plan, log, *actor, doing),
    }
}

fn done_shown(
    alloc: Global,
    tally: &Tally,
    plan: &Plan,
    log: &[Line],
    a: ActorId,
    doing: &Doing,
) -> Result<Shown, NoMemory>
    requires tally { IsTally plan.now (reverse log.now) tally.now }
    requires brick { AsksFive (TraceLine.Of a doing.now) }
    requires few { length log.now < 2147483648 }
    ensures { IfOk result (λ shown. shown ≡ shown_by plan.now (reverse log.now) (TraceLine.Of a doing.now)) }
{
    match doing {
        Doing::Ask {
            brick,
            asked,
            answered,
        } => Ok(ask_shown(tally, plan, log, *brick, asked, *answered)),
        Doing::HealEnd { healed, .. } => Ok(healed_shown(tally, plan, log, a, *healed)),
        Doing::End { reply } => end_shown(alloc, tally, plan, log, a, *reply),
        Doing::HealBegin { .. } => Ok(Shown::Nothing),
        Doing::Begin { .. } => Ok(Shown::Nothing),
    }
}

fn healed_shown(tally: &Tally, plan: &Plan, log: &[Line], a: ActorId, healed: Healed) -> Shown
    requires tally { IsTally plan.now (reverse log.now) tally.now }
    ensures { (kind : Kind) (g : Gfid) → result ≡ shown_by plan.now (reverse log.now) (TraceLine.Of a (Doing.HealEnd kind g healed)) }
{
    let _tally = tally;
    let _plan = plan;
    match healed {
        Healed::Split => Shown::Views(last_views(log, a, true)),
        _ => Shown::Nothing,
    }
}

fn end_shown(
    alloc: Global,
    tally: &Tally,
    plan: &Plan,
    log: &[Line],
    a: ActorId,
    reply: SpelledReply,
) -> Result<Shown, NoMemory>
    requires tally { IsTally plan.now (reverse log.now) tally.now }
    requires few { length log.now < 2147483648 }
    ensures { IfOk result (λ shown. shown ≡ shown_by plan.now (reverse log.now) (TraceLine.Of a (Doing.End reply))) }
{
    match reply {
        SpelledReply::Ok => {
            let names = last_listed(alloc, tally, plan, log, a)?;
            Ok(Shown::Names(names))
        }
        SpelledReply::SplitBrain => Ok(Shown::Views(last_views(log, a, false))),
        _ => Ok(Shown::Nothing),
    }
}
