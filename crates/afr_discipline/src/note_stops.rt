//! Whether a step ends a heal: too few locks, or looks with which no copy may be the source.
ghost use Rattle.std.specs.Prelude.{◌≡◌, ◌<◌, ◌≤◌, ◌&&◌};
ghost use Rattle.afr_base.specs.Bricks.{member};
ghost use Rattle.afr_model_moves.specs.Sets.{any};
ghost use Rattle.afr_model_moves.specs.Note.{stops_at};
ghost use Rattle.afr_model_moves.specs.Steps.{goes_on};
ghost use Rattle.afr_discipline.specs.Notes.{stopped};
ghost use Rattle.afr_model_moves.specs.Keeps.{keeps_in};
ghost use Rattle.afr_discipline.specs.Stands.{seen_as, step_of};

use crate::heal_sets::is_over;
use crate::heals::is_going_on;
use crate::register::{HealPart, Register, Step};
use afr_base::BrickId;

/// A copy that may be the source by all the lines, and lets the heal go on.
pub(crate) fn may_be_source(register: &Register, s: BrickId) -> bool
    requires few { register.now.shape.n ≤ 5 }
    requires small { s.0 < 5 }
    ensures { result ≡ member register.now.possible s.0 && goes_on register.now.shape.n (keeps_in register.now.shape) (seen_as register.now) s.0 }
{
    register.possible.has(s) && is_going_on(register, s)
}

/// Whether some copy may be the source. It stands apart, for only the end of the looks asks for it.
#[inline(never)]
fn some_may_be_source(register: &Register) -> bool
    requires { register.now.shape.n ≤ 5 }
    ensures { result ≡ any register.now.shape.n (λ s. member register.now.possible s && goes_on register.now.shape.n (keeps_in register.now.shape) (seen_as register.now) s) }
{
    for s in 0..register.shape.n {
        if may_be_source(register, BrickId(s)) {
            return true;
        }
    }
    false
}

/// Too few Work locks end a heal in its first part alone.
fn stops_at_locks(register: &Register) -> bool
    requires { register.now.shape.n ≤ 5 }
    ensures { register.now.step ≡ Step.WorkLocks → result ≡ stops_at register.now.shape.n (keeps_in register.now.shape) (seen_as register.now) (step_of Step.WorkLocks) }
{
    match register.part {
        HealPart::Opening => {
            is_over(register, BrickId(0), Step::WorkLocks, register.shape.n)
                && !register.held.has_quorum(register.shape.n)
        }
        HealPart::Piece | HealPart::Finish => false,
    }
}

/// Whether the present step ends the heal. The bricks that these steps ask are the same whichever copy is the source.
fn stops_at(register: &Register) -> bool
    requires { register.now.shape.n ≤ 5 }
    ensures { result ≡ stops_at register.now.shape.n (keeps_in register.now.shape) (seen_as register.now) (step_of register.now.step) }
{
    let n = register.shape.n;
    match register.step {
        Step::HealLocks => {
            is_over(register, BrickId(0), Step::HealLocks, n) && !register.healing.has_quorum(n)
        }
        Step::WorkLocks => stops_at_locks(register),
        Step::Looks => {
            is_over(register, BrickId(0), Step::Looks, n) && !some_may_be_source(register)
        }
        Step::Untouched
        | Step::Open
        | Step::Pres
        | Step::Applies
        | Step::Posts
        | Step::Reads
        | Step::HealPres
        | Step::Mends
        | Step::Settles
        | Step::Unlocks
        | Step::HealUnlocks => false,
    }
}

/// A heal that a step ends has only unlocks left.
pub(crate) fn stopped(register: &mut Register)
    requires { register.old.shape.n ≤ 5 }
    ensures { register.new ≡ stopped register.old }
{
    register.broken = register.broken || stops_at(register);
}
