//! The step, the bricks that it asked and the looks that a request and its answer leave in a register, outside a heal.
ghost use Rattle.std.specs.Prelude.{◌≡◌, ◌<◌, ◌≤◌, false};
ghost use Rattle.afr_discipline.specs.Notes.{asked_at, counts, entered, locked_outside, noted_outside, shown, shown_if, stayed};

use crate::answers::{answers, is_held, view_of};
use crate::areas::{is_on_object, is_the_area};
use crate::outside::is_busy;
use crate::register::{Register, Step};
use crate::steps::is_same_step;
use afr_base::{BrickId, BrickSet, Gfid};
use afr_choice::Looked;
use afr_lines::{Area, Domain, Request, Told};

/// The bricks that were asked, if this is the present step.
pub fn asked_at(register: &Register, step: Step) -> BrickSet
    ensures { result ≡ asked_at register.now step }
{
    if is_same_step(register.step, step) {
        register.asked
    } else {
        BrickSet::none()
    }
}

/// The brick was asked in this step; it is asked again where the answer leaves it so.
pub(crate) fn entered(register: &mut Register, step: Step, b: BrickId, again: bool)
    requires { b.0 < 5 }
    ensures { register.new ≡ entered register.old step b.0 again }
{
    register.asked = asked_at(register, step).with_if(!again, b);
    register.step = step;
}

/// A line that enters no step.
pub(crate) fn stayed(register: &mut Register)
    ensures { register.new ≡ stayed register.old }
{
    if is_same_step(register.step, Step::Untouched) {
        register.step = Step::Open;
    }
}

/// A look: what the brick showed at an earlier one is forgotten.
pub(crate) fn shown(looked: &mut Looked, b: BrickId, told: &Told)
    requires { b.0 < 5 }
    ensures { looked.new ≡ shown looked.old b.0 told.now }
{
    if answers(told) {
        looked.note(b, view_of(told));
    } else {
        looked.lose(b);
    }
}

/// A look, where it counts.
pub(crate) fn shown_if(counts: bool, looked: &mut Looked, b: BrickId, told: &Told)
    requires { b.0 < 5 }
    ensures { looked.new ≡ shown_if counts looked.old b.0 told.now }
{
    if counts {
        shown(looked, b, told);
    }
}

/// A Work lock outside a heal: the first begins a transaction.
fn locked_outside(register: &mut Register)
    requires { register.old.shape.n ≤ 5 }
    ensures { register.new ≡ locked_outside register.old }
{
    if is_busy(register) {
        stayed(register);
    } else {
        register.step = Step::Open;
        register.asked = BrickSet::none();
        register.unlocked = false;
        register.looked = Looked::none();
    }
}

/// A look counts before the Begin, under the lock.
fn counts(register: &Register, b: BrickId, g: Gfid) -> bool
    requires { b.0 < 5 }
    ensures { result ≡ counts register.now b.0 g.0 }
{
    register.begun.is_none() && register.held.has(b) && is_on_object(register.area, g)
}

fn noted_lock(register: &mut Register, b: BrickId, domain: Domain, area: Area, told: &Told)
    requires few { register.old.shape.n ≤ 5 }
    requires small { b.0 < 5 }
    ensures { register.new ≡ noted_outside register.old b.0 (Request.Lock domain area) told.now }
{
    match domain {
        Domain::Work => locked_outside(register),
        Domain::Heal => {
            entered(register, Step::HealLocks, b, false);
            register.broken = register.broken || is_held(told);
        }
    }
}

pub(crate) fn noted_unlock(
    register: &mut Register,
    b: BrickId,
    domain: Domain,
    area: Area,
    told: &Told,
)
    ensures { register.new ≡ noted_outside register.old b.0 (Request.Unlock domain area) told.now }
{
    stayed(register);
    match domain {
        Domain::Work => register.unlocked = is_the_area(register.area, area) || register.unlocked,
        Domain::Heal => {}
    }
}

pub(crate) fn noted_look(register: &mut Register, b: BrickId, g: Gfid, told: &Told)
    requires { b.0 < 5 }
    ensures { register.new ≡ noted_outside register.old b.0 (Request.Look g) told.now }
{
    let counts = counts(register, b, g);
    stayed(register);
    shown_if(counts, &mut register.looked, b, told);
}

/// What the steps keep of a request outside a heal, and its answer.
pub(crate) fn noted_outside(register: &mut Register, b: BrickId, request: &Request, told: &Told)
    requires few { register.old.shape.n ≤ 5 }
    requires small { b.0 < 5 }
    ensures { register.new ≡ noted_outside register.old b.0 request.now told.now }
{
    match request {
        Request::Lock { domain, area } => noted_lock(register, b, *domain, *area, told),
        Request::Unlock { domain, area } => noted_unlock(register, b, *domain, *area, told),
        Request::Look { gfid } => noted_look(register, b, *gfid, told),
        Request::Pre { .. } => entered(register, Step::Pres, b, false),
        Request::Apply { .. } => entered(register, Step::Applies, b, false),
        Request::Post { .. } => entered(register, Step::Posts, b, false),
        Request::ReadBytes { .. }
        | Request::ReadName { .. }
        | Request::List { .. }
        | Request::ReadAttr { .. }
        | Request::ReadAttrs { .. }
        | Request::Index
        | Request::Mend { .. }
        | Request::Settle { .. } => stayed(register),
    }
}
