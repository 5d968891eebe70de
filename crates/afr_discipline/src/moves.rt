//! Whether the discipline allows a move.
ghost use Rattle.std.specs.Prelude.{◌≡◌, ◌≤◌};
ghost use Rattle.afr_model_moves.specs.Register.{Exact};
ghost use Rattle.afr_discipline.specs.Inside.{begins_part, may_end_heal, may_heal_begin, may_move, may_move_inside};
ghost use Rattle.afr_discipline.specs.Moves.{IffTrue, MayMove};
ghost use Rattle.afr_model_moves.specs.Keeps.{keeps_in};
ghost use Rattle.afr_discipline.specs.Stands.{Stands, heal_part_of, seen_as};

use crate::areas::{is_same_kind, is_the_area};
use crate::heal_asks::may_ask_in_heal;
use crate::heal_moves::{are_left_out, whole};
use crate::outside::{is_allowed, is_busy};
use crate::register::{HealPart, Move, Register, Step};
use crate::steps::is_same_step;
use crate::views::has_some;
use afr_base::{Gfid, Kind};

fn begins(register: &Register, g: Gfid, kind: Kind) -> bool
    requires { register.now.shape.n ≤ 5 }
    ensures { result ≡ begins_part register.now.shape.n (seen_as register.now) g.0 kind (heal_part_of register.now.part) }
{
    match register.part {
        HealPart::Opening => {
            register.held.has_quorum(register.shape.n) && is_the_area(register.area, whole(g, kind))
        }
        HealPart::Piece | HealPart::Finish => is_same_kind(kind, register.kind),
    }
}

/// A part of a heal begins, after its Work locks.
fn may_begin_part(register: &Register, g: Gfid, kind: Kind) -> bool
    requires { register.now.shape.n ≤ 5 }
    ensures { result ≡ may_heal_begin register.now.shape.n (seen_as register.now) g.0 kind }
{
    !register.broken
        && g.0 == register.object.0
        && is_same_step(register.step, Step::WorkLocks)
        && are_left_out(register, register.shape.n)
        && begins(register, g, kind)
}

/// The end of a heal: no lock is held, and no step is left.
fn may_end(register: &Register) -> bool
    requires { register.now.shape.n ≤ 5 }
    ensures { result ≡ may_end_heal register.now.shape.n (seen_as register.now) }
{
    !is_busy(register)
        && !has_some(register.shape.n, register.healing)
        && (register.broken || is_same_step(register.step, Step::HealUnlocks))
}

/// Whether the discipline allows the move in a heal.
fn is_allowed_inside(register: &Register, step: &Move<'_>) -> bool
    requires { register.now.shape.n ≤ 5 }
    ensures { result ≡ may_move_inside register.now.shape.n (keeps_in register.now.shape) (seen_as register.now) step.now }
{
    match step {
        Move::Ask(b, request) => b.0 < register.shape.n && may_ask_in_heal(register, *b, request),
        Move::Begin(_) => false,
        Move::HealBegin(g, kind) => may_begin_part(register, *g, *kind),
        Move::End { .. } => may_end(register),
    }
}

fn is_move(register: &Register, step: &Move<'_>) -> bool
    requires { register.now.shape.n ≤ 5 }
    ensures { result ≡ may_move register.now.shape.n (keeps_in register.now.shape) (seen_as register.now) step.now }
{
    if register.inside {
        is_allowed_inside(register, step)
    } else {
        is_allowed(register, step)
    }
}

/// Whether the discipline allows the move.
pub fn may(register: &Register, step: &Move<'_>) -> bool
    requires { register.now.shape.n ≤ 5 }
    ensures value { result ≡ may_move register.now.shape.n (keeps_in register.now.shape) (seen_as register.now) step.now }
    ensures lawful { (r : Exact) → Stands register.now r → IffTrue result (MayMove register.now.shape.n (keeps_in register.now.shape) r step.now) }
{
    is_move(register, step)
}
