//! A request outside a heal and its answer, noted by one look at what was asked: the steps and the locks at once.
ghost use Rattle.std.specs.Prelude.{[], ◌≡◌, ◌+◌, ◌^◌, ◌<◌, ◌≤◌, false, if◌then◌else◌, true, Some};
ghost use Rattle.afr_base.specs.Bricks.{added_if};
ghost use Rattle.afr_choice.specs.Looks.{no_looks};
ghost use Rattle.afr_model_moves.specs.Register.{span};
ghost use Rattle.afr_model_moves.specs.Rules.{is_area};
ghost use Rattle.afr_discipline.specs.Notes.{is_working, noted_ask};

use crate::answers::{is_done, is_gone, is_granted};
use crate::areas::is_the_area;
use crate::note_law::{anew, dropped};
use crate::note_steps::{entered, stayed};
use crate::note_stops::stopped;
use crate::notes::noted_ask;
use crate::outside::is_busy;
use crate::register::{Register, Step, forget};
use crate::{note_law, note_steps};
use afr_base::{BrickId, BrickSet, Gfid, Kind};
use afr_lines::{Area, Domain, Request, Told};

/// The steps of a new transaction.
fn opened(register: &mut Register)
    ensures { register.new ≡ record register.old { step = Step.Open; asked = []; unlocked = false; looked = no_looks } }
{
    register.step = Step::Open;
    register.asked = BrickSet::none();
    register.unlocked = false;
    forget(&mut register.looked);
}

/// The first Work lock begins a transaction.
fn locked_first(register: &mut Register, at: u32, b: BrickId, area: Area, told: &Told)
    requires small { b.0 < 5 }
    requires outside { register.old.inside ≡ false }
    requires idle { is_working register.old ≡ false }
    ensures { register.new ≡ noted_ask register.old at b.0 (Request.Lock Domain.Work area) told.now }
{
    opened(register);
    anew(register, area);
    register.held = BrickSet::none().with_if(is_granted(told), b);
    dropped(is_gone(told), b, register);
}

/// The lock of the transaction's area, or of its second.
fn locked_by(register: &mut Register, b: BrickId, area: Area, granted: bool)
    requires { b.0 < 5 }
    ensures { register.new ≡ (if is_area register.old.area area then record register.old { held = added_if granted b.0 register.old.held } else record register.old { second = Some area; second_held = added_if granted b.0 register.old.second_held }) }
{
    if is_the_area(register.area, area) {
        register.held = register.held.with_if(granted, b);
    } else {
        register.second = Some(area);
        register.second_held = register.second_held.with_if(granted, b);
    }
}

/// A later Work lock of the transaction.
fn locked_more(register: &mut Register, at: u32, b: BrickId, area: Area, told: &Told)
    requires few { register.old.shape.n ≤ 5 }
    requires small { b.0 < 5 }
    requires outside { register.old.inside ≡ false }
    requires busy { is_working register.old ≡ true }
    ensures { register.new ≡ noted_ask register.old at b.0 (Request.Lock Domain.Work area) told.now }
{
    stayed(register);
    locked_by(register, b, area, is_granted(told));
    dropped(is_gone(told), b, register);
    stopped(register);
}

fn locked(register: &mut Register, at: u32, b: BrickId, area: Area, told: &Told)
    requires few { register.old.shape.n ≤ 5 }
    requires small { b.0 < 5 }
    requires outside { register.old.inside ≡ false }
    ensures { register.new ≡ noted_ask register.old at b.0 (Request.Lock Domain.Work area) told.now }
{
    if is_busy(register) {
        locked_more(register, at, b, area, told);
    } else {
        locked_first(register, at, b, area, told);
    }
}

fn unlocked(register: &mut Register, at: u32, b: BrickId, area: Area, told: &Told)
    requires few { register.old.shape.n ≤ 5 }
    requires small { b.0 < 5 }
    requires outside { register.old.inside ≡ false }
    ensures { register.new ≡ noted_ask register.old at b.0 (Request.Unlock Domain.Work area) told.now }
{
    note_steps::noted_unlock(register, b, Domain::Work, area, told);
    note_law::noted_unlock(register, b, Domain::Work, area, told);
    dropped(is_gone(told), b, register);
    stopped(register);
}

fn looked(register: &mut Register, at: u32, b: BrickId, g: Gfid, told: &Told)
    requires few { register.old.shape.n ≤ 5 }
    requires small { b.0 < 5 }
    requires outside { register.old.inside ≡ false }
    ensures { register.new ≡ noted_ask register.old at b.0 (Request.Look g) told.now }
{
    note_steps::noted_look(register, b, g, told);
    dropped(is_gone(told), b, register);
    stopped(register);
}

fn raised(register: &mut Register, at: u32, b: BrickId, g: Gfid, kind: Kind, told: &Told)
    requires small { b.0 < 5 }
    requires outside { register.old.inside ≡ false }
    ensures { register.new ≡ noted_ask register.old at b.0 (Request.Pre g kind) told.now }
{
    entered(register, Step::Pres, b, false);
    register.pre = register.pre.with_if(is_done(told), b);
    dropped(is_gone(told), b, register);
}

fn applied(register: &mut Register, at: u32, b: BrickId, attempt: u32, told: &Told)
    requires small { b.0 < 5 }
    requires outside { register.old.inside ≡ false }
    ensures { register.new ≡ noted_ask register.old at b.0 (Request.Apply attempt) told.now }
{
    entered(register, Step::Applies, b, false);
    register.done = register.done.with_if(is_done(told), b);
    dropped(is_gone(told), b, register);
}

fn posted(
    register: &mut Register,
    at: u32,
    b: BrickId,
    attempt: u32,
    g: Gfid,
    kind: Kind,
    missed: BrickSet,
    told: &Told,
)
    requires small { b.0 < 5 }
    requires outside { register.old.inside ≡ false }
    ensures { register.new ≡ noted_ask register.old at b.0 (Request.Post attempt g kind missed) told.now }
{
    entered(register, Step::Posts, b, false);
    register.post = register.post.with_if(is_done(told), b);
    dropped(is_gone(told), b, register);
}

fn noted_alone(register: &mut Register, at: u32, b: BrickId, request: &Request, told: &Told)
    requires few { register.old.shape.n ≤ 5 }
    requires small { b.0 < 5 }
    requires room { register.old.upto + span < 2 ^ 32 }
    requires outside { register.old.inside ≡ false }
    ensures { register.new ≡ noted_ask register.old at b.0 request.now told.now }
{
    match request {
        Request::Lock {
            domain: Domain::Work,
            area,
        } => locked(register, at, b, *area, told),
        Request::Unlock {
            domain: Domain::Work,
            area,
        } => unlocked(register, at, b, *area, told),
        Request::Look { gfid } => looked(register, at, b, *gfid, told),
        Request::Pre { gfid, kind } => raised(register, at, b, *gfid, *kind, told),
        Request::Apply { attempt } => applied(register, at, b, *attempt, told),
        Request::Post {
            attempt,
            gfid,
            kind,
            missed,
        } => posted(register, at, b, *attempt, *gfid, *kind, *missed, told),
        _ => noted_ask(register, at, b, request, told),
    }
}

/// Notes a request outside a heal, with its answer. It costs less than `note`, which makes the same of it.
pub fn note_outside(register: &mut Register, b: BrickId, request: &Request, told: &Told, at: u32)
    requires few { register.old.shape.n ≤ 5 }
    requires small { b.0 < 5 }
    requires room { register.old.upto + span < 2 ^ 32 }
    requires outside { register.old.inside ≡ false }
    ensures value { register.new ≡ noted_ask register.old at b.0 request.now told.now }
    ensures shape { register.new.shape ≡ register.old.shape }
{
    noted_alone(register, at, b, request, told);
}
