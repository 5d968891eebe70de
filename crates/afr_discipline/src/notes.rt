//! What a move and its answer leave in a register.
ghost use Rattle.std.specs.Prelude.{◌≡◌, ℕ, ◌+◌, ◌^◌, ◌<◌, ◌≤◌, if◌then◌else◌, length, true};
ghost use Rattle.afr_lines.specs.declared.answer.Told.{Told};
ghost use Rattle.afr_lines.specs.declared.request.Request.{Request};
ghost use Rattle.afr_model_moves.specs.Register.{Exact, span};
ghost use Rattle.afr_discipline.specs.Free.{IsFree, is_free};
ghost use Rattle.afr_discipline.specs.Moves.{note_move};
ghost use Rattle.afr_discipline.specs.Notes.{AsksBelow, IsAllowed, noted, noted_ask, noted_begin, noted_part, upto_noted};
ghost use Rattle.afr_model_moves.specs.Keeps.{keeps_in};
ghost use Rattle.afr_discipline.specs.Stands.{Stands, no_lines};

use crate::answers::is_gone;
use crate::note_heal::{allowed_steps, noted_steps};
use crate::note_law::{dropped, noted_law};
use crate::note_stops::stopped;
use crate::register::{Move, Register, Step, empty};
use afr_base::{BrickId, BrickSet, Kind};
use afr_choice::Looked;
use afr_lines::{Request, Told};
use afr_object::View;

/// A request and its answer. The steps come first: they read the locks as they were before, and the locks never read
/// the steps.
pub(crate) fn noted_ask(
    register: &mut Register,
    at: u32,
    b: BrickId,
    request: &Request,
    told: &Told,
)
    requires few { register.old.shape.n ≤ 5 }
    requires small { b.0 < 5 }
    requires room { register.old.upto + span < 2 ^ 32 }
    ensures { register.new ≡ noted_ask register.old at b.0 request.now told.now }
{
    noted_steps(register, at, b, request, told);
    noted_law(register, b, request, told);
    dropped(is_gone(told), b, register);
    stopped(register);
}

fn noted_begin(register: &mut Register, at: u32)
    requires { register.old.shape.n ≤ 5 }
    ensures { register.new ≡ noted_begin register.old at }
{
    register.step = Step::Open;
    register.begun = Some(at);
}

/// A part of a heal begins: its looks and its reads start anew.
fn noted_part(register: &mut Register, at: u32, kind: Kind)
    requires { register.old.shape.n ≤ 5 }
    ensures { register.new ≡ noted_part register.old at kind }
{
    register.begun = Some(at);
    register.kind = kind;
    register.step = Step::Looks;
    register.asked = BrickSet::none();
    register.looked = Looked::none();
    register.reads = [None; 5];
}

/// A heal that ends leaves nothing; the end of a work leaves its register to its later reads.
fn noted_end(register: &mut Register)
    requires { register.old.shape.n ≤ 5 }
    ensures { register.new ≡ (if register.old.inside then no_lines register.old.shape else register.old) }
{
    if register.inside {
        *register = empty(register.shape);
    }
}

fn noted(register: &mut Register, step: &Move<'_>, told: &Told, at: u32)
    requires few { register.old.shape.n ≤ 5 }
    requires small { AsksBelow step.now }
    requires room { register.old.upto + span < 2 ^ 32 }
    ensures { register.new ≡ noted register.old step.now told.now at }
{
    match step {
        Move::Ask(b, request) => noted_ask(register, at, *b, request, told),
        Move::Begin(_) => noted_begin(register, at),
        Move::HealBegin(_, kind) => noted_part(register, at, *kind),
        Move::End { .. } => noted_end(register),
    }
}

/// Each of the five bricks has its place among the views.
pub(crate) fn has_five(views: &[Option<View>; 5])
    ensures { length views.now ≡ 5 }
{}

/// Notes a move with its answer, where the log has its line at this position: the register then stands for what its actor's
/// lines show, this one included.
/// Whoever notes the lines of a heal shows `room` from the length of its source: `upto` is then at most that length and one
/// piece more.
pub fn note(register: &mut Register, step: &Move<'_>, told: &Told, at: u32)
    requires few { register.old.shape.n ≤ 5 }
    requires small { AsksBelow step.now }
    requires room { register.old.upto + span < 2 ^ 32 }
    ensures value { register.new ≡ noted register.old step.now told.now at }
    ensures stands { (r : Exact) → Stands register.old r → Stands register.new (note_move register.old.shape.n (keeps_in register.old.shape) r step.now told.now at) }
    ensures shape { register.new.shape ≡ register.old.shape }
    ensures upto { register.new.upto ≡ upto_noted register.old step.now }
{
    has_five(&register.looked.views);
    has_five(&register.seen.views);
    noted(register, step, told, at);
}

/// The same of a request that the discipline allows.
fn noted_allowed(register: &mut Register, at: u32, b: BrickId, request: &Request, told: &Told)
    requires few { register.old.shape.n ≤ 5 }
    requires small { b.0 < 5 }
    requires room { register.old.upto + span < 2 ^ 32 }
    requires allowed { IsAllowed register.old b.0 request.now }
    ensures { register.new ≡ noted_ask register.old at b.0 request.now told.now }
{
    allowed_steps(register, at, b, request, told);
    noted_law(register, b, request, told);
    dropped(is_gone(told), b, register);
    stopped(register);
}

/// Notes a request that the discipline allows, with its answer. It costs less than `note`, which makes the same of it.
pub fn note_allowed(register: &mut Register, b: BrickId, request: &Request, told: &Told, at: u32)
    requires few { register.old.shape.n ≤ 5 }
    requires small { b.0 < 5 }
    requires room { register.old.upto + span < 2 ^ 32 }
    requires allowed { IsAllowed register.old b.0 request.now }
    ensures value { register.new ≡ noted_ask register.old at b.0 request.now told.now }
    ensures shape { register.new.shape ≡ register.old.shape }
{
    noted_allowed(register, at, b, request, told);
}

/// Notes a look or a read without a lock, after none but such: it leaves nothing but that it was.
pub fn note_free(register: &mut Register)
    requires { IsFree register.old.shape register.old }
    ensures value { (at b : ℕ) (request : Request) (told : Told) → is_free request ≡ true → register.new ≡ noted_ask register.old at b request told }
    ensures kept { IsFree register.old.shape register.new }
{
    register.step = Step::Open;
}
