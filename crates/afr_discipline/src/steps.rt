//! The steps of a register: their order, and the bricks that were asked.
ghost use Rattle.std.specs.Prelude.{◌≡◌, ◌<◌};
ghost use Rattle.afr_model_moves.specs.Register.{asked_in, rank, same_step};
ghost use Rattle.afr_discipline.specs.Stands.{seen_as, step_of};
ghost use Rattle.afr_discipline.specs.Tests.{once};

use crate::register::{Register, Step};
use afr_base::BrickId;

/// The place of a step in the order of all.
pub(crate) fn rank(step: Step) -> u8
    ensures { result ≡ rank (step_of step) }
{
    match step {
        Step::Untouched => 0,
        Step::Open => 1,
        Step::Pres => 2,
        Step::Applies => 3,
        Step::Posts => 4,
        Step::HealLocks => 5,
        Step::WorkLocks => 6,
        Step::Looks => 7,
        Step::Reads => 8,
        Step::HealPres => 9,
        Step::Mends => 10,
        Step::Settles => 11,
        Step::Unlocks => 12,
        Step::HealUnlocks => 13,
    }
}

pub(crate) fn is_same_step(one: Step, other: Step) -> bool
    ensures { result ≡ same_step (step_of one) (step_of other) }
{
    rank(one) == rank(other)
}

/// Whether the brick was asked in this step.
pub(crate) fn was_asked(register: &Register, step: Step, b: BrickId) -> bool
    requires { b.0 < 5 }
    ensures { result ≡ asked_in (seen_as register.now) (step_of step) b.0 }
{
    is_same_step(register.step, step) && register.asked.has(b)
}

/// A step that hasn't passed, in which the brick wasn't asked, before the first unlock of the area.
pub(crate) fn is_once(register: &Register, step: Step, b: BrickId) -> bool
    requires { b.0 < 5 }
    ensures { result ≡ once (seen_as register.now) (step_of step) b.0 }
{
    rank(register.step) <= rank(step) && !was_asked(register, step, b) && !register.unlocked
}
