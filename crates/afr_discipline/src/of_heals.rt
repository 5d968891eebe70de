//! What a register says of a heal, and where its lines are.
ghost use Rattle.std.specs.Prelude.{◌≡◌};
ghost use Rattle.afr_model_moves.specs.Register.{Exact};
ghost use Rattle.afr_discipline.specs.Stands.{Stands};

use crate::register::{HealPart, Register, Step};
use afr_base::Gfid;

/// The object that a heal is of.
pub fn healed(register: &Register) -> Gfid
    ensures { (r : Exact) → Stands register.now r → result.0 ≡ r.law.object }
{
    register.object
}

/// The position of the present Begin or HealBegin.
pub fn begun(register: &Register) -> Option<u32>
    ensures { result ≡ register.now.begun }
{
    register.begun
}

/// The step that the lines are in.
pub fn present_step(register: &Register) -> Step
    ensures { result ≡ register.now.step }
{
    register.step
}

/// The part that a heal is in.
pub fn present_part(register: &Register) -> HealPart
    ensures { result ≡ register.now.part }
{
    register.part
}
