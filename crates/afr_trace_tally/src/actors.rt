//! What the lines so far have made of one actor: its works, its links and its sessions.
ghost use Rattle.std.specs.Prelude.{◌≡◌, ◌&&◌, ◌||◌, ◌+◌, ◌-◌, ◌<◌, ◌≤◌, ◌∷◌, ◌^◌, ℕ, not, [], List, slice_index_or, false, if◌then◌else◌};
ghost use Rattle.afr_base.specs.Bricks.{member};
ghost use Rattle.afr_lines.specs.Places.{next_place, opens};
ghost use Rattle.afr_lines.specs.Work.{ends_work, is_of, kills};
ghost use Rattle.afr_lines.specs.declared.line.Line.{Line};
ghost use Rattle.afr_model.specs.Report.{started_bricks};
ghost use Rattle.afr_model.specs.Sessions.{ends_session, linked_by};
ghost use Rattle.afr_plan.specs.declared.plan.Plan.{Plan};
ghost use Rattle.afr_trace_tally.specs.Actors.{IsActorTally};
ghost use Rattle.afr_trace_tally.specs.Flags.{flags};
ghost use Rattle.afr_trace_tally.specs.Seen.{place_seen};

use crate::sessions::{Place, joined_by, linked_by, next_place, opens_with, started_by};
use crate::works::kills;
use afr_base::{ActorId, BrickId};
use afr_lines::{Line, ends_work, is_of};

/// Where an actor stands in its works, how many of them have ended, whether it was killed, and at which bricks its link is up and
/// its session is live.
#[derive(Clone, Copy)]
pub(crate) struct ActorTally {
    pub place: Place,
    pub ended: u32,
    pub killed: bool,
    pub linked: [bool; 5],
    pub joined: [bool; 5],
}

/// An actor before its first line.
pub(crate) fn new_actor() -> ActorTally
    ensures { (p : Plan) (a : ℕ) → IsActorTally p [] a result }
{
    ActorTally {
        place: Place::Fresh,
        ended: 0,
        killed: false,
        linked: [true; 5],
        joined: [false; 5],
    }
}

fn linked_flags(was: &[bool; 5], a: ActorId, line: &Line) -> [bool; 5]
    ensures { result ≡ flags (λ b. linked_by a.0 b line.now (slice_index_or was.now b false)) }
{
    [
        linked_by(was[0], a, BrickId(0), line),
        linked_by(was[1], a, BrickId(1), line),
        linked_by(was[2], a, BrickId(2), line),
        linked_by(was[3], a, BrickId(3), line),
        linked_by(was[4], a, BrickId(4), line),
    ]
}

fn opened_at(a: ActorId, line: &Line, started: &[bool; 5], was: &ActorTally, b: BrickId) -> bool
    requires { b.0 < 5 }
    ensures { result ≡ (is_of a.0 line.now && opens (place_seen was.now.place) line.now && slice_index_or started.now b.0 false && slice_index_or was.now.linked b.0 false) }
{
    opens_with(
        a,
        line,
        was.place,
        started[b.0 as usize],
        was.linked[b.0 as usize],
    )
}

fn joined_at(a: ActorId, line: &Line, started: &[bool; 5], was: &ActorTally, b: BrickId) -> bool
    requires { b.0 < 5 }
    ensures { result ≡ ((slice_index_or was.now.joined b.0 false || (is_of a.0 line.now && opens (place_seen was.now.place) line.now && slice_index_or started.now b.0 false && slice_index_or was.now.linked b.0 false)) && not (ends_session a.0 b.0 line.now)) }
{
    joined_by(
        was.joined[b.0 as usize],
        opened_at(a, line, started, was, b),
        a,
        b,
        line,
    )
}

fn joined_flags(a: ActorId, line: &Line, started: &[bool; 5], was: &ActorTally) -> [bool; 5]
    ensures { result ≡ flags (λ b. (slice_index_or was.now.joined b false || (is_of a.0 line.now && opens (place_seen was.now.place) line.now && slice_index_or started.now b false && slice_index_or was.now.linked b false)) && not (ends_session a.0 b line.now)) }
{
    [
        joined_at(a, line, started, was, BrickId(0)),
        joined_at(a, line, started, was, BrickId(1)),
        joined_at(a, line, started, was, BrickId(2)),
        joined_at(a, line, started, was, BrickId(3)),
        joined_at(a, line, started, was, BrickId(4)),
    ]
}

fn place_after(a: ActorId, line: &Line, place: Place) -> Place
    ensures { place_seen result ≡ (if is_of a.0 line.now then next_place (place_seen place) line.now else place_seen place) }
{
    if is_of(a, line) {
        next_place(place, line)
    } else {
        place
    }
}

fn ended_after(a: ActorId, line: &Line, ended: u32) -> u32
    requires { ended < 2 ^ 32 - 1 }
    ensures { result ≡ (if ends_work a.0 line.now then ended + 1 else ended) }
{
    if ends_work(a, line) { ended + 1 } else { ended }
}

fn killed_after(a: ActorId, line: &Line, killed: bool) -> bool
    ensures { result ≡ (kills a.0 line.now || killed) }
{
    kills(a, line) || killed
}

/// The actor after one more line, by the bricks that were started before it.
pub(crate) fn next_actor(
    a: ActorId,
    line: &Line,
    started: &[bool; 5],
    was: &ActorTally,
) -> ActorTally
    requires { was.now.ended < 2 ^ 32 - 1 }
    ensures { (p : Plan) (older : List Line) → started.now ≡ flags (λ b. member (started_bricks p.shape.n older) b) → IsActorTally p older a.0 was.now → IsActorTally p (line.now ∷ older) a.0 result }
{
    ActorTally {
        place: place_after(a, line, was.place),
        ended: ended_after(a, line, was.ended),
        killed: killed_after(a, line, was.killed),
        linked: linked_flags(&was.linked, a, line),
        joined: joined_flags(a, line, started, was),
    }
}

/// Which bricks are started after one more line.
pub(crate) fn next_started(line: &Line, was: &[bool; 5]) -> [bool; 5]
    ensures { (n : ℕ) (older : List Line) → was.now ≡ flags (λ b. member (started_bricks n older) b) → result ≡ flags (λ b. member (started_bricks n (line.now ∷ older)) b) }
{
    [
        started_by(was[0], BrickId(0), line),
        started_by(was[1], BrickId(1), line),
        started_by(was[2], BrickId(2), line),
        started_by(was[3], BrickId(3), line),
        started_by(was[4], BrickId(4), line),
    ]
}

/// Which bricks are started at first.
#[tactic(auto, using(crate::proofs::FlagLemmas::started_first))]
pub(crate) fn first_started(n: u8) -> [bool; 5]
    requires { n ≤ 5 }
    ensures { result ≡ flags (λ b. member (started_bricks n []) b) }
{
    [0 < n, 1 < n, 2 < n, 3 < n, 4 < n]
}
