//! The next line of a heal: that of the first step, in order, in which it is some brick's turn.
ghost use Rattle.std.specs.Prelude.{◌≡◌, ◌<◌, ◌≤◌};
ghost use Rattle.afr_discipline.specs.Stands.{heal_part_of, seen_as, step_of};
ghost use Rattle.afr_heal.specs.Carried.{next_by};
ghost use Rattle.afr_heal.specs.Coming.{RoomEach, comes};
ghost use Rattle.afr_heal.specs.Due.{rest_next};
ghost use Rattle.afr_heal.specs.Engine.{Ends, broken_next, has_part, part_or_end, step_or, whole_next};
ghost use Rattle.afr_model_moves.specs.Keeps.{keeps_in};
ghost use Rattle.afr_model_moves.specs.Register.{HealUnlocks};

use crate::coming::Coming;
use crate::due::{asked, first_due};
use crate::requests::{area_of, heal_range, next_of, put_request};
use afr_base::{BrickId, Gfid, Kind};
use afr_discipline::{HealPart, Register, Step, first_of, present_part, present_step};
use afr_lines::{Domain, Request};

/// Whether another part is to come: only a heal of bytes has more than the first.
fn is_part_left(register: &Register, kind: Kind) -> bool
    ensures { result ≡ has_part kind (heal_part_of register.now.part) }
{
    match (kind, present_part(register)) {
        (Kind::Bytes, HealPart::Finish) => false,
        (Kind::Bytes, _) => true,
        (_, _) => false,
    }
}

/// The Heal locks are given back, one after another.
fn unlock_or_end(
    register: &Register,
    source: BrickId,
    gfid: Gfid,
    kind: Kind,
    request: &mut Request,
) -> Coming
    requires few { register.now.shape.n ≤ 5 }
    requires source { source.0 < 5 }
    requires room { RoomEach register.now kind }
    ensures { comes result request.new ≡ step_or register.now.shape.n (keeps_in register.now.shape) (seen_as register.now) source.0 gfid kind HealUnlocks Ends }
{
    match asked(register, source, Step::HealUnlocks) {
        Some(due) => {
            put_request(register, source, gfid, kind, due.step, due.brick, request);
            Coming::Ask(due.brick)
        }
        None => Coming::End,
    }
}

/// After the unlocks of a part: the next part, or the Heal locks are given back.
fn end_or_giving(
    register: &Register,
    source: BrickId,
    gfid: Gfid,
    kind: Kind,
    request: &mut Request,
) -> Coming
    requires few { register.now.shape.n ≤ 5 }
    requires source { source.0 < 5 }
    requires room { RoomEach register.now kind }
    ensures { comes result request.new ≡ part_or_end register.now.shape.n (keeps_in register.now.shape) (seen_as register.now) source.0 gfid kind (has_part kind (heal_part_of register.now.part)) }
{
    if is_part_left(register, kind) {
        match first_of(register.shape.n, register.seen.reached) {
            Some(b) => {
                *request = Request::Lock {
                    domain: Domain::Work,
                    area: next_of(register, source, gfid),
                };
                Coming::Ask(b)
            }
            None => Coming::End,
        }
    } else {
        unlock_or_end(register, source, gfid, kind, request)
    }
}

/// A broken heal gives back its Work locks, then its Heal locks, the lowest brick first.
fn giving(register: &Register, gfid: Gfid, kind: Kind, request: &mut Request) -> Coming
    requires few { register.now.shape.n ≤ 5 }
    ensures { comes result request.new ≡ broken_next register.now.shape.n (seen_as register.now) gfid kind }
{
    if let Some(b) = first_of(register.shape.n, register.held) {
        *request = Request::Unlock {
            domain: Domain::Work,
            area: area_of(register, gfid, kind),
        };
        return Coming::Ask(b);
    }
    match first_of(register.shape.n, register.healing) {
        Some(b) => {
            *request = Request::Unlock {
                domain: Domain::Heal,
                area: heal_range(gfid),
            };
            Coming::Ask(b)
        }
        None => Coming::End,
    }
}

/// Where no step asks anybody.
fn rest(
    register: &Register,
    source: BrickId,
    gfid: Gfid,
    kind: Kind,
    step: Step,
    request: &mut Request,
) -> Coming
    requires few { register.now.shape.n ≤ 5 }
    requires source { source.0 < 5 }
    requires room { RoomEach register.now kind }
    ensures { comes result request.new ≡ rest_next register.now.shape.n (keeps_in register.now.shape) (seen_as register.now) source.0 gfid kind (step_of step) }
{
    match step {
        Step::Untouched => {
            *request = Request::Lock {
                domain: Domain::Heal,
                area: heal_range(gfid),
            };
            Coming::Ask(BrickId(0))
        }
        Step::HealLocks => Coming::End,
        Step::WorkLocks => Coming::Begin,
        _ => end_or_giving(register, source, gfid, kind, request),
    }
}

/// A heal that goes on, by the step that it is in.
fn whole(
    register: &Register,
    source: BrickId,
    gfid: Gfid,
    kind: Kind,
    request: &mut Request,
) -> Coming
    requires few { register.now.shape.n ≤ 5 }
    requires source { source.0 < 5 }
    requires room { RoomEach register.now kind }
    ensures { comes result request.new ≡ whole_next register.now.shape.n (keeps_in register.now.shape) (seen_as register.now) source.0 gfid kind (step_of register.now.step) }
{
    let step = present_step(register);
    match first_due(register, source, step) {
        Some(due) => {
            put_request(register, source, gfid, kind, due.step, due.brick, request);
            Coming::Ask(due.brick)
        }
        None => rest(register, source, gfid, kind, step, request),
    }
}

/// The next line of a heal of this object and kind; a request is written in its place, for it is large. The machine hands in
/// its source, any brick till the first looks are over, and notes the answer with `note`.
pub fn heal_next(
    register: &Register,
    source: BrickId,
    gfid: Gfid,
    kind: Kind,
    request: &mut Request,
) -> Coming
    requires few { register.now.shape.n ≤ 5 }
    requires source { source.0 < 5 }
    requires room { RoomEach register.now kind }
    ensures { comes result request.new ≡ next_by register.now source.0 gfid kind }
{
    if register.broken {
        giving(register, gfid, kind, request)
    } else {
        whole(register, source, gfid, kind, request)
    }
}
