//! Which brick shows that the source of a heal moved.
ghost use Rattle.std.specs.Prelude.{◌≡◌, ℕ, Option, [], ◌∷◌, ◌<◌, ◌&&◌, ◌==◌, not};
ghost use Rattle.afr_base.specs.Bricks.{minus};
ghost use Rattle.afr_choice.specs.Looks.{view_at};
ghost use Rattle.afr_choice.specs.Verdict.{copies_of, is_copy};
ghost use Rattle.afr_discipline.specs.Stands.{heal_part_of};
ghost use Rattle.afr_discipline.specs.Turns.{brick_of};
ghost use Rattle.afr_model.specs.Moved.{accuser, len_in, or_brick, unlike};
ghost use Rattle.afr_heal_machine.specs.Outcome.{by_mover, mover, unlike_in};

use crate::outcome::HealOutcome;
use afr_base::{BrickId, BrickSet, Kind};
use afr_choice::{Looked, accusers, has_copy};
use afr_discipline::{HealPart, Register, present_part};
use afr_rule::len_at;

/// The lowest brick whose later view accuses the source.
fn lowest_accuser(kind: Kind, source: BrickId, looked: &Looked) -> Option<BrickId>
    requires { source.0 < 5 }
    ensures { result ≡ brick_of (accuser kind source.0 looked.now) }
{
    accusers(looked, kind, source).first()
}

/// Whether the brick is a sink by the first looks, and the later ones show another length than at the source.
fn is_unlike(register: &Register, kind: Kind, source: BrickId, x: BrickId) -> bool
    requires small { source.0 < 5 }
    requires less { x.0 < 5 }
    ensures { result ≡ (is_copy register.now.shape register.now.seen kind x.0 && not (x.0 == source.0) && not (len_in (view_at x.0 register.now.looked) == len_in (view_at source.0 register.now.looked))) }
{
    has_copy(&register.shape, &register.seen, kind, x)
        && x.0 != source.0
        && len_at(&register.looked, x) != len_at(&register.looked, source)
}

/// The lowest sink whose later view shows another length than the source's.
fn lowest_unlike(register: &Register, kind: Kind, source: BrickId) -> Option<BrickId>
    requires { source.0 < 5 }
    ensures { result ≡ brick_of (unlike source.0 (minus (copies_of register.now.shape register.now.seen kind) (source.0 ∷ [])) register.now.looked) }
{
    let sinks = BrickSet::of_five(
        is_unlike(register, kind, source, BrickId(0)),
        is_unlike(register, kind, source, BrickId(1)),
        is_unlike(register, kind, source, BrickId(2)),
        is_unlike(register, kind, source, BrickId(3)),
        is_unlike(register, kind, source, BrickId(4)),
    );
    sinks.first()
}

/// At the finish, the lowest sink of another length.
fn unlike_at_finish(register: &Register, kind: Kind, source: BrickId) -> Option<BrickId>
    requires { source.0 < 5 }
    ensures { result ≡ brick_of (unlike_in register.now kind source.0) }
{
    match present_part(register) {
        HealPart::Finish => lowest_unlike(register, kind, source),
        HealPart::Opening | HealPart::Piece => None,
    }
}

fn or_brick(first: Option<BrickId>, second: Option<BrickId>) -> Option<BrickId>
    ensures { (x y : Option ℕ) → first ≡ brick_of x → second ≡ brick_of y → result ≡ brick_of (or_brick x y) }
{
    match first {
        Some(x) => Some(x),
        None => second,
    }
}

/// The brick that shows that the source moved: one that accuses it, or at the finish a sink of another length.
fn mover(register: &Register, kind: Kind, source: BrickId) -> Option<BrickId>
    requires { source.0 < 5 }
    ensures { result ≡ brick_of (mover register.now.shape kind (heal_part_of register.now.part) source.0 register.now.seen register.now.looked) }
{
    or_brick(
        lowest_accuser(kind, source, &register.looked),
        unlike_at_finish(register, kind, source),
    )
}

/// A later look that ends the heal and was answered: the source moved.
pub(crate) fn by_mover(register: &Register, kind: Kind, source: BrickId) -> HealOutcome
    requires { source.0 < 5 }
    ensures { result ≡ by_mover (mover register.now.shape kind (heal_part_of register.now.part) source.0 register.now.seen register.now.looked) }
{
    match mover(register, kind, source) {
        Some(x) => HealOutcome::Moved(x),
        None => HealOutcome::Failed,
    }
}
