//! The copies that may still be the source of a heal after a request.
ghost use Rattle.std.specs.Prelude.{◌≡◌, ℕ, ◌<◌, ◌≤◌, false, true};
ghost use Rattle.afr_lines.specs.declared.request.Request.{Request};
ghost use Rattle.afr_model_moves.specs.Keeps.{keeps_in};
ghost use Rattle.afr_model_moves.specs.Steps.{may_heal};
ghost use Rattle.afr_discipline.specs.Alike.{IsAlike};
ghost use Rattle.afr_discipline.specs.Notes.{IsAllowed, possible_now, still_possible};
ghost use Rattle.afr_discipline.specs.Stands.{seen_as};

use crate::heal_asks::{each_possible, gives_back, may_heal};
use crate::register::{Register, Step};
use crate::steps::rank;
use afr_base::{BrickId, BrickSet};
use afr_lines::{Area, Domain, Request};

/// Whether a lock may be asked for alike: a Work lock till the first part's looks begin, and in the midst of a part's locks.
fn is_alike_lock(register: &Register, domain: Domain, area: Area) -> bool
    ensures { result ≡ true → IsAlike (keeps_in register.now.shape) (seen_as register.now) (Request.Lock domain area) }
{
    match (domain, register.step) {
        (Domain::Heal, _) => true,
        (Domain::Work, Step::HealLocks) => true,
        (Domain::Work, Step::WorkLocks) => true,
        (_, _) => false,
    }
}

/// Whether the request may be made by each source, or by none: by a Heal lock, a look and most Work locks no source is told
/// from another.
fn is_alike(register: &Register, request: &Request) -> bool
    ensures { result ≡ true → IsAlike (keeps_in register.now.shape) (seen_as register.now) request.now }
{
    match request {
        Request::Lock { domain, area } => is_alike_lock(register, *domain, *area),
        Request::Look { .. } => true,
        _ => false,
    }
}

/// The copies that may still be the source, where it is the same for each.
fn alike_possible(register: &Register, b: BrickId, request: &Request) -> BrickSet
    requires few { register.now.shape.n ≤ 5 }
    requires small { b.0 < 5 }
    requires alike { IsAlike (keeps_in register.now.shape) (seen_as register.now) request.now }
    ensures { result ≡ still_possible register.now b.0 request.now }
{
    let may = may_heal(register, BrickId(0), b, request);
    BrickSet::of_five(
        register.possible.has(BrickId(0)) && may,
        register.possible.has(BrickId(1)) && may,
        register.possible.has(BrickId(2)) && may,
        register.possible.has(BrickId(3)) && may,
        register.possible.has(BrickId(4)) && may,
    )
}

/// The copies that may still be the source.
pub(crate) fn still_possible(register: &Register, b: BrickId, request: &Request) -> BrickSet
    requires few { register.now.shape.n ≤ 5 }
    requires small { b.0 < 5 }
    ensures { result ≡ still_possible register.now b.0 request.now }
{
    if is_alike(register, request) {
        alike_possible(register, b, request)
    } else {
        each_possible(register, b, request)
    }
}

/// The copies that may be the source.
fn all_possible(register: &Register) -> BrickSet
    ensures { result ≡ possible_now register.now }
{
    register.possible.is_of_five();
    register.possible
}

/// An unlock before any look, which no source allows.
fn is_early(register: &Register, request: &Request) -> bool
    ensures { result ≡ true → (n s b : ℕ) → may_heal n (keeps_in register.now.shape) (seen_as register.now) s b request.now ≡ false }
{
    gives_back(request) && rank(register.step) < 7
}

/// The copies that may still be the source of a heal that only unlocks.
fn broken_possible(register: &Register, b: BrickId, request: &Request) -> BrickSet
    requires few { register.now.shape.n ≤ 5 }
    requires small { b.0 < 5 }
    ensures { result ≡ still_possible register.now b.0 request.now }
{
    if is_early(register, request) {
        BrickSet::none()
    } else {
        still_possible(register, b, request)
    }
}

/// The copies that may still be the source after a request that one of them allows: all that might, where each allows it or
/// none does, or where one is left.
pub(crate) fn left_possible(register: &Register, b: BrickId, request: &Request) -> BrickSet
    requires few { register.now.shape.n ≤ 5 }
    requires small { b.0 < 5 }
    requires inside { register.now.inside ≡ true }
    requires allowed { IsAllowed register.now b.0 request.now }
    ensures { result ≡ still_possible register.now b.0 request.now }
{
    if register.broken {
        return broken_possible(register, b, request);
    }
    if is_alike(register, request) {
        return all_possible(register);
    }
    if register.possible.count() == 1 {
        return all_possible(register);
    }
    each_possible(register, b, request)
}
