//! What a request of a heal and its answer leave in a register: the step, the looks, the reads and the part.
ghost use Rattle.std.specs.Prelude.{◌≡◌, ◌+◌, ◌^◌, ◌<◌, ◌≤◌, false};
ghost use Rattle.afr_model_moves.specs.Register.{is_piece, span};
ghost use Rattle.afr_discipline.specs.Notes.{IsAllowed, broken_by, leaves_open, looked_inside, noted_inside, noted_steps, part_after, read_inside, upto_after};
ghost use Rattle.afr_discipline.specs.Stands.{heal_part_of};

use crate::answers::{
    answers, fails, given, is_done, is_failed, is_given, is_gone, is_granted, is_held,
};
use crate::areas::is_same_area;
use crate::heal_moves::whole;
use crate::heal_possible::{left_possible, still_possible};
use crate::heal_reads::is_in_opening;
use crate::note_steps::{entered, noted_outside, shown, shown_if};
use crate::register::{HealPart, Register, Step};
use crate::steps::{is_same_step, rank};
use afr_base::{BrickId, BrickSet, HEAL_BLOCK, Kind};
use afr_lines::{Area, Domain, Request, Told};

fn is_piece(part: HealPart) -> bool
    ensures { result ≡ is_piece (heal_part_of part) }
{
    match part {
        HealPart::Piece => true,
        HealPart::Opening | HealPart::Finish => false,
    }
}

/// The first Work lock after the unlocks begins a piece, or the finish where it is of all bytes.
fn part_after(register: &Register, area: Area) -> HealPart
    ensures { result ≡ part_after register.now area }
{
    if !is_same_step(register.step, Step::Unlocks) {
        register.part
    } else if is_same_area(whole(register.object, Kind::Bytes), area) {
        HealPart::Finish
    } else {
        HealPart::Piece
    }
}

/// A look of a heal; those of its first part are kept to its end.
fn looked_inside(register: &mut Register, b: BrickId, told: &Told)
    requires { b.0 < 5 }
    ensures { register.new ≡ looked_inside register.old b.0 told.now }
{
    let again = !(answers(told) || fails(told));
    let opening = is_in_opening(register.part);
    shown(&mut register.looked, b, told);
    shown_if(opening, &mut register.seen, b, told);
    entered(register, Step::Looks, b, again);
}

/// A read of a heal.
fn read_inside(register: &mut Register, at: u32, b: BrickId, told: &Told)
    requires { b.0 < 5 }
    ensures { register.new ≡ read_inside register.old at b.0 told.now }
{
    let again = !(is_given(told) || fails(told));
    register.reads[b.0 as usize] = given(told, at);
    entered(register, Step::Reads, b, again);
}

/// The bytes that are done after an unlock: the first one ends a piece.
fn upto_after(register: &Register) -> u32
    requires { register.now.upto + span < 2 ^ 32 }
    ensures { result ≡ upto_after register.now }
{
    if is_piece(register.part) && rank(register.step) < rank(Step::Unlocks) {
        register.upto + HEAL_BLOCK
    } else {
        register.upto
    }
}

/// A change of the numbers or of the contents is asked again unless it was carried out or failed.
fn leaves_open(told: &Told) -> bool
    ensures { result ≡ leaves_open told.now }
{
    !(is_done(told) || fails(told))
}

fn noted_lock(register: &mut Register, at: u32, b: BrickId, domain: Domain, area: Area, told: &Told)
    requires { b.0 < 5 }
    ensures { register.new ≡ noted_inside register.old at b.0 (Request.Lock domain area) told.now }
{
    match domain {
        Domain::Heal => entered(register, Step::HealLocks, b, false),
        Domain::Work => {
            register.part = part_after(register, area);
            let again = !(is_granted(told) || fails(told));
            entered(register, Step::WorkLocks, b, again);
        }
    }
}

fn noted_unlock(
    register: &mut Register,
    at: u32,
    b: BrickId,
    domain: Domain,
    area: Area,
    told: &Told,
)
    requires small { b.0 < 5 }
    requires room { register.old.upto + span < 2 ^ 32 }
    ensures { register.new ≡ noted_inside register.old at b.0 (Request.Unlock domain area) told.now }
{
    match domain {
        Domain::Work => {
            register.upto = upto_after(register);
            entered(register, Step::Unlocks, b, is_failed(told));
        }
        Domain::Heal => entered(register, Step::HealUnlocks, b, is_failed(told)),
    }
}

fn noted_inside(register: &mut Register, at: u32, b: BrickId, request: &Request, told: &Told)
    requires small { b.0 < 5 }
    requires room { register.old.upto + span < 2 ^ 32 }
    ensures { register.new ≡ noted_inside register.old at b.0 request.now told.now }
{
    match request {
        Request::Lock { domain, area } => noted_lock(register, at, b, *domain, *area, told),
        Request::Unlock { domain, area } => noted_unlock(register, at, b, *domain, *area, told),
        Request::Look { .. } => looked_inside(register, b, told),
        Request::ReadBytes { .. } => read_inside(register, at, b, told),
        Request::ReadAttrs { .. } => read_inside(register, at, b, told),
        Request::List { .. } => read_inside(register, at, b, told),
        Request::Pre { .. } => entered(register, Step::HealPres, b, leaves_open(told)),
        Request::Mend { .. } => entered(register, Step::Mends, b, leaves_open(told)),
        Request::Settle { .. } => entered(register, Step::Settles, b, leaves_open(told)),
        Request::ReadName { .. }
        | Request::ReadAttr { .. }
        | Request::Index
        | Request::Apply { .. }
        | Request::Post { .. } => {}
    }
}

fn broken_by_lock(register: &Register, domain: Domain, area: Area, told: &Told) -> bool
    ensures { result ≡ broken_by register.now (Request.Lock domain area) told.now }
{
    match domain {
        Domain::Heal => is_held(told),
        Domain::Work => fails(told) && !is_in_opening(part_after(register, area)),
    }
}

/// Whether the answer ends the heal.
fn broken_by(register: &Register, request: &Request, told: &Told) -> bool
    ensures { result ≡ broken_by register.now request.now told.now }
{
    match request {
        Request::Lock { domain, area } => broken_by_lock(register, *domain, *area, told),
        Request::Look { .. } => fails(told) && !is_in_opening(register.part),
        Request::Unlock { .. } => is_gone(told),
        Request::ReadBytes { .. }
        | Request::ReadName { .. }
        | Request::List { .. }
        | Request::ReadAttr { .. }
        | Request::ReadAttrs { .. }
        | Request::Index
        | Request::Pre { .. }
        | Request::Apply { .. }
        | Request::Post { .. }
        | Request::Mend { .. }
        | Request::Settle { .. } => fails(told),
    }
}

/// What the steps keep of a request and its answer.
pub(crate) fn noted_steps(
    register: &mut Register,
    at: u32,
    b: BrickId,
    request: &Request,
    told: &Told,
)
    requires few { register.old.shape.n ≤ 5 }
    requires small { b.0 < 5 }
    requires room { register.old.upto + span < 2 ^ 32 }
    ensures { register.new ≡ noted_steps register.old at b.0 request.now told.now }
{
    if register.inside {
        let possible = still_possible(register, b, request);
        let broken = register.broken || broken_by(register, request, told);
        noted_inside(register, at, b, request, told);
        register.possible = possible;
        register.broken = broken;
    } else {
        noted_outside(register, b, request, told);
    }
}

/// The same of a request that the discipline allows: where each source allows it or none does, or one source is left, none is
/// asked.
pub(crate) fn allowed_steps(
    register: &mut Register,
    at: u32,
    b: BrickId,
    request: &Request,
    told: &Told,
)
    requires few { register.old.shape.n ≤ 5 }
    requires small { b.0 < 5 }
    requires room { register.old.upto + span < 2 ^ 32 }
    requires allowed { IsAllowed register.old b.0 request.now }
    ensures { register.new ≡ noted_steps register.old at b.0 request.now told.now }
{
    if register.inside {
        let possible = left_possible(register, b, request);
        let broken = register.broken || broken_by(register, request, told);
        noted_inside(register, at, b, request, told);
        register.possible = possible;
        register.broken = broken;
    } else {
        noted_outside(register, b, request, told);
    }
}
