//! What ends a heal.
ghost use Rattle.std.specs.Prelude.{◌≡◌, ℕ, ◌<◌, ◌≤◌};
ghost use Rattle.afr_discipline.specs.Stands.{heal_part_of};
ghost use Rattle.afr_heal.specs.Engine.{has_part};
ghost use Rattle.afr_model_moves.specs.Note.{fails};
ghost use Rattle.afr_heal_machine.specs.Outcome.{by_looks, cause, locks_cause, looks_cause, outcome_after};

use crate::copies::is_clean;
use crate::moving::by_mover;
use crate::outcome::HealOutcome;
use afr_base::{BrickId, Kind, Shape};
use afr_choice::{Looked, holders};
use afr_discipline::{HealPart, Register, present_part};
use afr_lines::{Domain, Request, Told};

fn fails(told: &Told) -> bool
    ensures { result ≡ fails told.now }
{
    match told {
        Told::NotConnected | Told::Failed => true,
        _ => false,
    }
}

/// Whether another part of the heal comes: only one of bytes has more than the first.
fn is_part_left(kind: Kind, part: HealPart) -> bool
    ensures { result ≡ has_part kind (heal_part_of part) }
{
    match (kind, part) {
        (Kind::Bytes, HealPart::Finish) => false,
        (Kind::Bytes, _) => true,
        (_, _) => false,
    }
}

/// A Heal lock that another actor has; else too few locks, or one that was lost later.
fn by_lock(register: &Register, domain: Domain, told: &Told) -> HealOutcome
    ensures { result ≡ locks_cause (heal_part_of register.now.part) domain told.now }
{
    match (domain, told) {
        (Domain::Heal, Told::Held(owner)) => HealOutcome::Busy(*owner),
        (_, _) => match present_part(register) {
            HealPart::Opening => HealOutcome::Short,
            HealPart::Piece | HealPart::Finish => HealOutcome::Failed,
        },
    }
}

/// What the first looks say of a heal that they end.
fn by_looks(shape: Shape, kind: Kind, seen: &Looked) -> HealOutcome
    requires { shape.n ≤ 5 }
    ensures { result ≡ by_looks shape kind seen.now }
{
    if !(seen.reached.has_quorum(shape.n) && holders(seen).has_quorum(shape.n)) {
        return HealOutcome::Short;
    }
    if is_clean(kind, seen) {
        HealOutcome::Nothing
    } else {
        HealOutcome::Split
    }
}

fn by_look(register: &Register, kind: Kind, source: BrickId, told: &Told) -> HealOutcome
    requires few { register.now.shape.n ≤ 5 }
    requires small { source.0 < 5 }
    ensures { result ≡ looks_cause register.now.shape kind (heal_part_of register.now.part) source.0 register.now.seen register.now.looked told.now }
{
    match present_part(register) {
        HealPart::Opening => by_looks(register.shape, kind, &register.seen),
        HealPart::Piece | HealPart::Finish => {
            if fails(told) {
                HealOutcome::Failed
            } else {
                by_mover(register, kind, source)
            }
        }
    }
}

/// What the request whose answer ends the heal ends it with; `part` is the heal's part before it, the register that after it.
/// It stands apart, for only such answers ask for it.
#[inline(never)]
fn cause(
    register: &Register,
    kind: Kind,
    part: HealPart,
    source: BrickId,
    request: &Request,
    told: &Told,
) -> HealOutcome
    requires few { register.now.shape.n ≤ 5 }
    requires small { source.0 < 5 }
    ensures { result ≡ cause register.now.shape kind (heal_part_of part) (heal_part_of register.now.part) source.0 register.now.seen register.now.looked request.now told.now }
{
    match request {
        Request::Lock { domain, .. } => by_lock(register, *domain, told),
        Request::Look { .. } => by_look(register, kind, source, told),
        Request::Unlock { .. } => {
            if is_part_left(kind, part) {
                HealOutcome::Failed
            } else {
                HealOutcome::Settled
            }
        }
        _ => HealOutcome::Failed,
    }
}

/// How the heal ends after an answer: the first that breaks it says so. `was` says whether it was broken before.
pub(crate) fn outcome_after(
    register: &Register,
    kind: Kind,
    part: HealPart,
    source: BrickId,
    request: &Request,
    told: &Told,
    was: bool,
    before: HealOutcome,
) -> HealOutcome
    requires few { register.now.shape.n ≤ 5 }
    requires small { source.0 < 5 }
    ensures { result ≡ outcome_after was register.now.broken before (cause register.now.shape kind (heal_part_of part) (heal_part_of register.now.part) source.0 register.now.seen register.now.looked request.now told.now) }
{
    if !was && register.broken {
        cause(register, kind, part, source, request, told)
    } else {
        before
    }
}
