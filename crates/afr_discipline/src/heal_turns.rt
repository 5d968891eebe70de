//! Whose turn it is in a step of a heal, and which copy may be its source.
ghost use Rattle.std.specs.Prelude.{◌≡◌, ◌≤◌};
ghost use Rattle.afr_base.specs.Bricks.{member};
ghost use Rattle.afr_model_moves.specs.Keeps.{keeps_in};
ghost use Rattle.afr_discipline.specs.Stands.{seen_as, step_of};
ghost use Rattle.afr_discipline.specs.Turns.{brick_of, candidate, find, turn_of};

use crate::heal_sets::left_in;
use crate::note_stops::may_be_source;
use crate::register::{Register, Step};
use crate::steps::rank;
use afr_base::{BrickId, BrickSet};

/// The lowest brick whose turn it is in a step of a heal, if the copy is its source.
pub fn turn_of(register: &Register, source: BrickId, step: Step) -> Option<BrickId>
    requires few { register.now.shape.n ≤ 5 }
    ensures { result ≡ brick_of (turn_of register.now.shape.n (keeps_in register.now.shape) (seen_as register.now) source.0 (step_of step)) }
{
    if rank(step) < rank(register.step) {
        return None;
    }
    first_of(register.shape.n, left_in(register, source, step))
}

/// The lowest brick of a set below `n`.
pub fn first_of(n: u8, set: BrickSet) -> Option<BrickId>
    requires { n ≤ 5 }
    ensures { result ≡ brick_of (find n (member set)) }
{
    let few = set.common(BrickSet::all(n));
    if few.is_empty() {
        return None;
    }
    Some(few.lowest())
}

/// The lowest copy that may be the source and lets the heal go on.
pub fn first_candidate(register: &Register) -> Option<BrickId>
    requires few { register.now.shape.n ≤ 5 }
    ensures { result ≡ brick_of (find register.now.shape.n (candidate register.now.shape.n (keeps_in register.now.shape) (seen_as register.now))) }
{
    let copies = BrickSet::of_five(
        may_be_source(register, BrickId(0)),
        may_be_source(register, BrickId(1)),
        may_be_source(register, BrickId(2)),
        may_be_source(register, BrickId(3)),
        may_be_source(register, BrickId(4)),
    );
    first_of(register.shape.n, copies)
}
