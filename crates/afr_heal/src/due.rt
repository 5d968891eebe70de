//! The step of a heal in which it is some brick's turn. Its request is made by the one who asks, once.
ghost use Rattle.std.specs.Prelude.{◌≡◌, ◌<◌, ◌≤◌, IfSome};
ghost use Rattle.afr_heal.specs.Due.{Asks, AsksFromLocks, AsksFromLooks, AsksWhole};

use afr_base::BrickId;
use afr_discipline::{Register, Step, turn_of};

/// A step, and the brick that it asks next.
#[derive(Clone, Copy, Debug)]
pub(crate) struct Due {
    pub(crate) step: Step,
    pub(crate) brick: BrickId,
}

/// Whom the step asks, if it is somebody's turn.
pub(crate) fn asked(register: &Register, source: BrickId, step: Step) -> Option<Due>
    requires { register.now.shape.n ≤ 5 }
    ensures asks { Asks register.now source.0 step result }
    ensures small { IfSome result (λ due. due.brick.0 < 5) }
{
    match turn_of(register, source, step) {
        Some(brick) => Some(Due { step, brick }),
        None => None,
    }
}

/// From the looks of a part to its unlocks: the first step in which it is somebody's turn.
fn asked_from_looks(register: &Register, source: BrickId) -> Option<Due>
    requires { register.now.shape.n ≤ 5 }
    ensures asks { AsksFromLooks register.now source.0 result }
    ensures small { IfSome result (λ due. due.brick.0 < 5) }
{
    if let Some(looks) = asked(register, source, Step::Looks) {
        return Some(looks);
    }
    if let Some(reads) = asked(register, source, Step::Reads) {
        return Some(reads);
    }
    if let Some(raises) = asked(register, source, Step::HealPres) {
        return Some(raises);
    }
    if let Some(mends) = asked(register, source, Step::Mends) {
        return Some(mends);
    }
    if let Some(settles) = asked(register, source, Step::Settles) {
        return Some(settles);
    }
    asked(register, source, Step::Unlocks)
}

/// Before the looks of the first part: the Heal locks, and then the Work locks.
fn asked_from_locks(register: &Register, source: BrickId) -> Option<Due>
    requires { register.now.shape.n ≤ 5 }
    ensures asks { AsksFromLocks register.now source.0 result }
    ensures small { IfSome result (λ due. due.brick.0 < 5) }
{
    if let Some(locks) = asked(register, source, Step::HealLocks) {
        return Some(locks);
    }
    asked(register, source, Step::WorkLocks)
}

/// The first step of a heal that goes on, in order, in which it is somebody's turn.
pub(crate) fn first_due(register: &Register, source: BrickId, step: Step) -> Option<Due>
    requires { register.now.shape.n ≤ 5 }
    ensures asks { AsksWhole register.now source.0 step result }
    ensures small { IfSome result (λ due. due.brick.0 < 5) }
{
    match step {
        Step::Untouched => None,
        Step::HealLocks => asked_from_locks(register, source),
        Step::WorkLocks => asked(register, source, Step::WorkLocks),
        _ => asked_from_looks(register, source),
    }
}
