//! Whether a post-op accuses only those that missed its operation.
ghost use Rattle.std.specs.Prelude.{◌≡◌, ◌↔◌, ◌&&◌, ◌||◌, ◌<◌, ◌≤◌, Bool, true, false, None, List, [], ◌∷◌, length, reverse, if◌then◌else◌};
ghost use Rattle.std.specs.Option.{option_copied};
ghost use Rattle.afr_base.specs.Bricks.{below, is_nothing, lowest, member, minus, same};
ghost use Rattle.afr_lines.specs.Log.{change_of};
ghost use Rattle.afr_lines.specs.Work.{is_end, is_of, work};
ghost use Rattle.afr_lines.specs.declared.answer.Told.{Told};
ghost use Rattle.afr_lines.specs.declared.line.Line.{Line};
ghost use Rattle.afr_choice.specs.Looks.{no_looks};
ghost use Rattle.afr_model.specs.Showing.{among, begun_after, begun_by, is_done, looked_after, looked_by};
ghost use Rattle.afr_model.specs.Standing.{change_after, change_by, since, suffices};
ghost use Rattle.afr_trace_check.specs.Blaming.{has_grounds, is_change_of, is_position};
ghost use Rattle.afr_trace_check.specs.Grounds.{IsGrounded, after_last, asks_lock, closing, doing, locks_object, over, refuses, refusing};
ghost use Rattle.afr_trace_tally.specs.Tally.{AreKnown, AsksKnown};

use crate::honest::both;
use crate::showing::looked_after;
use afr_base::{ActorId, BrickId, BrickSet, Gfid, Kind, Shape, same_kind};
use afr_choice::{Looked, good};
use afr_lines::{Line, Request, Told, change_of, is_end, is_of, kind_for};
use afr_object::{Change, object_of};
use afr_plan::Plan;
use afr_trace_follow::{object_of_area, work_start};

// ---- the attempt

/// The position of the last attempt, one line more.
fn begun_more(a: ActorId, line: &Line, position: u32, was: Option<u32>) -> Option<u32>
    ensures { (older : List Line) → position ≡ length older → result ≡ (if is_of a.0 line.now then (if is_end line.now then None else begun_after line.now older was) else was) }
{
    if is_of(a, line) {
        if is_end(line) {
            None
        } else {
            begun_after(line, position, was)
        }
    } else {
        was
    }
}

/// The position of the last attempt of the present work.
fn begun_by(log: &[Line], a: ActorId) -> Option<u32>
    requires { length log.now < 2147483648 }
    ensures { result ≡ begun_by (work a.0 (reverse log.now)) }
{
    let start = work_start(log, a);
    let mut begun = None;
    for position in start..log.len() {
        begun = begun_more(a, &log[position], position as u32, begun);
    }
    begun
}

fn begun_after(line: &Line, position: u32, was: Option<u32>) -> Option<u32>
    ensures { (older : List Line) → position ≡ length older → result ≡ begun_after line.now older was }
{
    match line {
        Line::Begin { .. } => Some(position),
        _ => was,
    }
}

/// The change of the last attempt, one line more.
fn change_more<'a>(a: ActorId, line: &'a Line, was: Option<&'a Change>) -> Option<&'a Change>
    ensures { option_copied result ≡ (if is_of a.0 line.now then (if is_end line.now then None else change_after (change_of line.now) (option_copied was.entry)) else option_copied was.entry) }
{
    if is_of(a, line) {
        if is_end(line) {
            None
        } else {
            change_after(change_of(line), was)
        }
    } else {
        was
    }
}

/// The change of the last attempt of the present work.
fn change_by(log: &[Line], a: ActorId) -> Option<&Change>
    ensures { option_copied result ≡ change_by (work a.0 (reverse log.now)) }
{
    let start = work_start(log, a);
    let mut found = None;
    for position in start..log.len() {
        found = change_more(a, &log[position], found);
    }
    found
}

fn change_after<'a>(change: Option<&'a Change>, was: Option<&'a Change>) -> Option<&'a Change>
    ensures { option_copied result ≡ change_after (option_copied change.entry) (option_copied was.entry) }
{
    match change {
        Some(change) => Some(change),
        None => was,
    }
}

fn is_change_of(change: Option<&Change>, g: Gfid, kind: Kind) -> bool
    ensures { result ≡ is_change_of (option_copied change.entry) g kind }
{
    match change {
        Some(change) => g == object_of(change) && same_kind(kind, kind_for(change)),
        None => false,
    }
}

fn is_position(position: Option<u32>, attempt: u32) -> bool
    ensures { result ≡ is_position position attempt }
{
    match position {
        Some(position) => position == attempt,
        None => false,
    }
}

/// Whether the last attempt of the present work stands at a position.
fn is_begun(log: &[Line], a: ActorId, attempt: u32) -> bool
    requires { length log.now < 2147483648 }
    ensures { result ≡ is_position (begun_by (work a.0 (reverse log.now))) attempt }
{
    is_position(begun_by(log, a), attempt)
}

/// Whether it is of this object and kind.
fn is_its_change(log: &[Line], a: ActorId, g: Gfid, kind: Kind) -> bool
    ensures { result ≡ is_change_of (change_by (work a.0 (reverse log.now))) g kind }
{
    is_change_of(change_by(log, a), g, kind)
}

// ---- phases

fn is_done(told: Told) -> bool
    ensures { result ≡ is_done told }
{
    match told {
        Told::Done => true,
        _ => false,
    }
}

fn closing(bricks: BrickSet, attempt: u32, line: &Line) -> BrickSet
    requires { AsksKnown line.now }
    ensures { result ≡ closing attempt line.now bricks }
{
    match line {
        Line::Ask {
            brick,
            request: Request::Post { attempt: of, .. },
            ..
        } => bricks.with_if(*of == attempt, *brick),
        _ => bricks,
    }
}

/// The bricks that were asked for the post-op of an attempt.
fn closed_by(log: &[Line], attempt: u32) -> BrickSet
    requires { AreKnown (reverse log.now) }
    ensures { result ≡ over (closing attempt) (reverse log.now) }
{
    let mut bricks = BrickSet::none();
    for position in 0..log.len() {
        bricks = closing(bricks, attempt, &log[position]);
    }
    bricks
}

/// Whether a brick was asked for it.
fn was_closed(log: &[Line], attempt: u32, b: BrickId) -> bool
    requires known { AreKnown (reverse log.now) }
    requires brick { b.0 < 5 }
    ensures { result ≡ member (over (closing attempt) (reverse log.now)) b.0 }
{
    closed_by(log, attempt).has(b)
}

fn doing(bricks: BrickSet, attempt: u32, line: &Line) -> BrickSet
    requires { AsksKnown line.now }
    ensures { result ≡ doing attempt line.now bricks }
{
    match line {
        Line::Ask {
            brick,
            request: Request::Apply { attempt: of },
            told,
            ..
        } => bricks.with_if(is_done(*told) && *of == attempt, *brick),
        _ => bricks,
    }
}

/// The bricks that did the operation of an attempt.
fn done_by(log: &[Line], attempt: u32) -> BrickSet
    requires { AreKnown (reverse log.now) }
    ensures { result ≡ over (doing attempt) (reverse log.now) }
{
    let mut bricks = BrickSet::none();
    for position in 0..log.len() {
        bricks = doing(bricks, attempt, &log[position]);
    }
    bricks
}

// ---- looks

fn locks_object(g: Gfid, line: &Line) -> bool
    ensures { result ≡ locks_object g line.now }
{
    match line {
        Line::Ask {
            request: Request::Lock { area, .. },
            ..
        } => object_of_area(area) == g,
        _ => false,
    }
}

/// What the last looks at an object show, one line more.
fn seen_more(a: ActorId, g: Gfid, line: &Line, was: Looked) -> Looked
    requires { AsksKnown line.now }
    ensures { result ≡ (if is_of a.0 line.now then (if is_end line.now || locks_object g line.now then no_looks else looked_after g line.now was) else was) }
{
    if is_of(a, line) {
        if is_end(line) || locks_object(g, line) {
            Looked::none()
        } else {
            looked_after(was, g, line)
        }
    } else {
        was
    }
}

/// What the work's last looks at an object show, after its last lock there.
fn seen_by(log: &[Line], a: ActorId, g: Gfid) -> Looked
    requires { AreKnown (reverse log.now) }
    ensures { result ≡ looked_by g (after_last (locks_object g) (work a.0 (reverse log.now))) }
{
    let start = work_start(log, a);
    let mut looked = Looked::none();
    for position in start..log.len() {
        looked = seen_more(a, g, &log[position], looked);
    }
    looked
}

// ---- what was missed

fn asks_lock(line: &Line) -> bool
    ensures { result ≡ asks_lock line.now }
{
    match line {
        Line::Ask {
            request: Request::Lock { .. },
            ..
        } => true,
        _ => false,
    }
}

fn refuses(told: Told) -> bool
    ensures { result ≡ refuses told }
{
    match told {
        Told::NoObject => true,
        Told::Failed => true,
        Told::NotConnected => true,
        _ => false,
    }
}

fn refusing(bricks: BrickSet, line: &Line) -> BrickSet
    requires { AsksKnown line.now }
    ensures { result ≡ refusing line.now bricks }
{
    match line {
        Line::Ask { brick, told, .. } => bricks.with_if(refuses(*told), *brick),
        _ => bricks,
    }
}

/// Whether the work has asked for a lock, one line more.
fn locked_more(a: ActorId, line: &Line, was: bool) -> bool
    ensures { result ≡ (if is_of a.0 line.now then (if is_end line.now then false else asks_lock line.now || was) else was) }
{
    if is_of(a, line) {
        !is_end(line) && (asks_lock(line) || was)
    } else {
        was
    }
}

/// The bricks that refused something, one line more.
fn refusing_more(a: ActorId, line: &Line, locked: bool, was: BrickSet) -> BrickSet
    requires { AsksKnown line.now }
    ensures { result ≡ (if is_of a.0 line.now then (if is_end line.now then [] else (if asks_lock line.now || locked then refusing line.now was else [])) else was) }
{
    if is_of(a, line) {
        if !is_end(line) && (asks_lock(line) || locked) {
            refusing(was, line)
        } else {
            BrickSet::none()
        }
    } else {
        was
    }
}

/// The bricks that refused something since the work's first lock.
fn refused_by(log: &[Line], a: ActorId) -> BrickSet
    requires { AreKnown (reverse log.now) }
    ensures { result ≡ among refusing (since asks_lock (work a.0 (reverse log.now))) }
{
    let start = work_start(log, a);
    let mut locked = false;
    let mut bricks = BrickSet::none();
    for position in start..log.len() {
        bricks = refusing_more(a, &log[position], locked, bricks);
        locked = locked_more(a, &log[position], locked);
    }
    bricks
}

/// Whether all of some bricks did.
fn have_refused(log: &[Line], a: ActorId, bricks: BrickSet) -> bool
    requires { AreKnown (reverse log.now) }
    ensures { result ≡ is_nothing (minus bricks (among refusing (since asks_lock (work a.0 (reverse log.now))))) }
{
    bricks.minus(refused_by(log, a)).is_empty()
}

// ---- post-ops

fn suffices(shape: Shape, kind: Kind, looked: &Looked, bricks: BrickSet) -> bool
    requires { shape.n ≤ 5 }
    ensures { result ≡ suffices shape kind looked.now bricks }
{
    bricks.has_quorum(shape.n) && !good(&shape, looked, kind).common(bricks).is_empty()
}

/// A set without its lowest brick. How many bricks it has shows that it has none twice.
fn rest(bricks: BrickSet, b: BrickId) -> BrickSet
    requires small { b.0 < 5 }
    requires some { is_nothing bricks ≡ false }
    requires first { b.0 ≡ lowest bricks }
    ensures { bricks ≡ b.0 ∷ result }
{
    let _count = bricks.count();
    bricks.without(b)
}

/// Whether two sets are the same: each has the same lowest brick, and the same rest.
fn same(one: BrickSet, other: BrickSet) -> bool
    ensures { result ≡ same one other }
{
    if one.is_empty() {
        return other.is_empty();
    }
    if other.is_empty() {
        return false;
    }
    let b = one.lowest();
    let c = other.lowest();
    let more = same(rest(one, b), rest(other, c));
    both(b == c, more)
}

/// Whether these are all bricks but those that did the operation.
fn are_others(n: u8, did: BrickSet, bricks: BrickSet) -> bool
    requires { n ≤ 5 }
    ensures { result ≡ same bricks (minus (below n) did) }
{
    same(bricks, BrickSet::all(n).minus(did))
}

fn are_all(
    begun: bool,
    of_it: bool,
    once: bool,
    done: bool,
    enough: bool,
    others: bool,
    why: bool,
) -> bool
    ensures { result ≡ (begun && of_it && once && done && enough && others && why) }
{
    begun && of_it && once && done && enough && others && why
}

/// Whether a post-op is of the last attempt of its actor's work and the first one at its brick, is asked where the operation was done,
/// which is at a majority with a good copy, and accuses exactly the other bricks, each with a cause.
fn has_grounds(
    plan: &Plan,
    log: &[Line],
    a: ActorId,
    b: BrickId,
    attempt: u32,
    g: Gfid,
    kind: Kind,
    missed: BrickSet,
) -> bool
    requires shape { plan.now.shape.n ≤ 5 }
    requires known { AreKnown (reverse log.now) }
    requires few { length log.now < 2147483648 }
    requires brick { b.0 < 5 }
    ensures { result ≡ has_grounds plan.now attempt g kind missed b.0 (work a.0 (reverse log.now)) (reverse log.now) }
{
    let did = done_by(log, attempt);
    let looked = seen_by(log, a, g);
    let begun = is_begun(log, a, attempt);
    let of_it = is_its_change(log, a, g, kind);
    let closed = was_closed(log, attempt, b);
    let done = did.has(b);
    let enough = suffices(plan.shape, kind, &looked, did);
    let others = are_others(plan.shape.n, did, missed);
    let why = have_refused(log, a, missed);
    are_all(begun, of_it, !closed, done, enough, others, why)
}

/// Whether a request, where it is a post-op, accuses with a cause.
fn is_asked_blamed(plan: &Plan, log: &[Line], a: ActorId, b: BrickId, request: &Request) -> bool
    requires shape { plan.now.shape.n ≤ 5 }
    requires known { AreKnown (reverse log.now) }
    requires few { length log.now < 2147483648 }
    requires brick { b.0 < 5 }
    ensures { (told : Told) (took : Bool) → (result ≡ true) ↔ IsGrounded plan.now (Line.Ask a b request.now told took) (reverse log.now) }
{
    match request {
        Request::Post {
            attempt,
            gfid,
            kind,
            missed,
        } => has_grounds(plan, log, a, b, *attempt, *gfid, *kind, *missed),
        Request::Lock { .. } => true,
        Request::Unlock { .. } => true,
        Request::Look { .. } => true,
        Request::ReadBytes { .. } => true,
        Request::ReadName { .. } => true,
        Request::List { .. } => true,
        Request::ReadAttr { .. } => true,
        Request::ReadAttrs { .. } => true,
        Request::Index => true,
        Request::Pre { .. } => true,
        Request::Apply { .. } => true,
        Request::Mend { .. } => true,
        Request::Settle { .. } => true,
    }
}

/// Whether a line, where it is a post-op, accuses exactly the bricks that didn't do its operation, each of which refused something since
/// its work's first lock. Then it takes as many steps as the log has lines; any other line takes none.
pub fn is_blamed(plan: &Plan, log: &[Line], line: &Line) -> bool
    requires shape { plan.now.shape.n ≤ 5 }
    requires known { AreKnown (reverse log.now) }
    requires line { AsksKnown line.now }
    requires few { length log.now < 2147483648 }
    ensures { (result ≡ true) ↔ IsGrounded plan.now line.now (reverse log.now) }
{
    match line {
        Line::Ask {
            actor,
            brick,
            request,
            ..
        } => is_asked_blamed(plan, log, *actor, *brick, request),
        Line::Begin { .. } => true,
        Line::HealBegin { .. } => true,
        Line::End { .. } => true,
        Line::HealEnd { .. } => true,
        Line::Event { .. } => true,
    }
}
