//! The locks, the numbers' requests and the area that a request and its answer leave in a register.
ghost use Rattle.std.specs.Prelude.{◌≡◌, ◌<◌, ◌≤◌};
ghost use Rattle.afr_discipline.specs.Notes.{anew, dropped, heal_left, heal_locked, locked, named, noted_law, released, second_in, second_left, taken, with_held};

use crate::answers::{is_done, is_granted};
use crate::areas::{is_same_area, is_the_area, object_of};
use crate::heal_moves::heal_range;
use crate::outside::is_busy;
use crate::register::Register;
use afr_base::{BrickId, BrickSet};
use afr_lines::{Area, Domain, Request, Told};

/// A new transaction, or a new part of a heal.
pub(crate) fn anew(register: &mut Register, area: Area)
    ensures { register.new ≡ anew register.old area }
{
    register.begun = None;
    register.area = Some(area);
    register.held = BrickSet::none();
    register.second = None;
    register.second_held = BrickSet::none();
    register.pre = BrickSet::none();
    register.done = BrickSet::none();
    register.post = BrickSet::none();
}

/// The other area that was named.
fn second_in(register: &Register, area: Area) -> Option<Area>
    ensures { result ≡ second_in register.now area }
{
    if is_the_area(register.area, area) {
        register.second
    } else {
        Some(area)
    }
}

/// A Work lock was asked for.
fn named(register: &mut Register, area: Area)
    requires { register.old.shape.n ≤ 5 }
    ensures { register.new ≡ named register.old area }
{
    if is_busy(register) {
        register.second = second_in(register, area);
    } else {
        anew(register, area);
    }
}

fn with_held(register: &mut Register, b: BrickId)
    requires { b.0 < 5 }
    ensures { register.new ≡ with_held register.old b.0 }
{
    register.held = register.held.with(b);
}

/// A Work lock was granted.
fn taken(register: &mut Register, area: Area, b: BrickId)
    requires few { register.old.shape.n ≤ 5 }
    requires small { b.0 < 5 }
    ensures { register.new ≡ taken register.old area b.0 }
{
    if is_busy(register) && !is_the_area(register.area, area) {
        register.second = Some(area);
        register.second_held = register.second_held.with(b);
    } else {
        named(register, area);
        with_held(register, b);
    }
}

/// A Work lock.
fn locked(register: &mut Register, area: Area, b: BrickId, told: &Told)
    requires few { register.old.shape.n ≤ 5 }
    requires small { b.0 < 5 }
    ensures { register.new ≡ locked register.old area b.0 told.now }
{
    if is_granted(told) {
        taken(register, area, b);
    } else {
        named(register, area);
    }
}

/// A Heal lock: its object is the heal's from the first line on.
fn heal_locked(register: &mut Register, area: Area, b: BrickId, told: &Told)
    requires { b.0 < 5 }
    ensures { register.new ≡ heal_locked register.old area b.0 told.now }
{
    register.inside = true;
    register.object = object_of(area);
    register.healing = register.healing.with_if(is_granted(told), b);
}

fn second_left(register: &Register, area: Area, b: BrickId) -> BrickSet
    requires { b.0 < 5 }
    ensures { result ≡ second_left register.now area b.0 }
{
    if is_the_area(register.second, area) {
        register.second_held.without(b)
    } else {
        register.second_held
    }
}

/// An area was given back.
fn released(register: &mut Register, area: Area, b: BrickId)
    requires { b.0 < 5 }
    ensures { register.new ≡ released register.old area b.0 }
{
    if is_the_area(register.area, area) {
        register.held = register.held.without(b);
    } else {
        register.second_held = second_left(register, area, b);
    }
}

/// Only an unlock of its own area gives the Heal lock back.
fn heal_left(register: &Register, area: Area, b: BrickId) -> BrickSet
    requires { b.0 < 5 }
    ensures { result ≡ heal_left register.now area b.0 }
{
    if is_same_area(heal_range(register.object), area) {
        register.healing.without(b)
    } else {
        register.healing
    }
}

fn noted_lock(register: &mut Register, b: BrickId, domain: Domain, area: Area, told: &Told)
    requires few { register.old.shape.n ≤ 5 }
    requires small { b.0 < 5 }
    ensures { register.new ≡ noted_law register.old b.0 (Request.Lock domain area) told.now }
{
    match domain {
        Domain::Work => locked(register, area, b, told),
        Domain::Heal => heal_locked(register, area, b, told),
    }
}

/// Only an unlock that was carried out gives a lock back.
pub(crate) fn noted_unlock(
    register: &mut Register,
    b: BrickId,
    domain: Domain,
    area: Area,
    told: &Told,
)
    requires { b.0 < 5 }
    ensures { register.new ≡ noted_law register.old b.0 (Request.Unlock domain area) told.now }
{
    if !is_done(told) {
        return;
    }
    match domain {
        Domain::Work => released(register, area, b),
        Domain::Heal => register.healing = heal_left(register, area, b),
    }
}

/// What the law's register keeps of a request and its answer.
pub(crate) fn noted_law(register: &mut Register, b: BrickId, request: &Request, told: &Told)
    requires few { register.old.shape.n ≤ 5 }
    requires small { b.0 < 5 }
    ensures { register.new ≡ noted_law register.old b.0 request.now told.now }
{
    match request {
        Request::Lock { domain, area } => noted_lock(register, b, *domain, *area, told),
        Request::Unlock { domain, area } => noted_unlock(register, b, *domain, *area, told),
        Request::Pre { .. } => register.pre = register.pre.with_if(is_done(told), b),
        Request::Apply { .. } => register.done = register.done.with_if(is_done(told), b),
        Request::Post { .. } => register.post = register.post.with_if(is_done(told), b),
        Request::Settle { .. } => register.settled = register.settled.with_if(is_done(told), b),
        Request::Look { .. }
        | Request::ReadBytes { .. }
        | Request::ReadName { .. }
        | Request::List { .. }
        | Request::ReadAttr { .. }
        | Request::ReadAttrs { .. }
        | Request::Index
        | Request::Mend { .. } => {}
    }
}

/// A session that has ended took its locks along.
pub(crate) fn dropped(gone: bool, b: BrickId, register: &mut Register)
    requires { b.0 < 5 }
    ensures { register.new ≡ dropped gone b.0 register.old }
{
    if gone {
        register.held = register.held.without(b);
        register.second_held = register.second_held.without(b);
        register.healing = register.healing.without(b);
    }
}
