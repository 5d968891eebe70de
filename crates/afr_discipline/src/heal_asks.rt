//! Which request a heal may make: one that some copy allows, of those that its lines leave as the source.
ghost use Rattle.std.specs.Prelude.{◌≡◌, ◌<◌, ◌≤◌};
ghost use Rattle.afr_model_moves.specs.Sets.{any};
ghost use Rattle.afr_model_moves.specs.Steps.{may_heal};
ghost use Rattle.afr_discipline.specs.Inside.{allows, is_unlock, may_ask_inside};
ghost use Rattle.afr_discipline.specs.Notes.{still_possible};
ghost use Rattle.afr_model_moves.specs.Keeps.{keeps_in};
ghost use Rattle.afr_discipline.specs.Stands.{seen_as};

use crate::heal_moves::{
    may_list, may_lock_in_heal, may_look, may_raise_in_heal, may_read_attrs, may_read_bytes,
    may_take_heal, may_unlock_heal, may_unlock_work,
};
use crate::heal_numbers::may_settle;
use crate::heal_reads::may_repair;
use crate::register::Register;
use crate::views::has_some;
use afr_base::{BrickId, BrickSet};
use afr_lines::{Area, Domain, Request};

fn may_lock(register: &Register, s: BrickId, b: BrickId, domain: Domain, area: Area) -> bool
    requires few { register.now.shape.n ≤ 5 }
    requires source { s.0 < 5 }
    requires small { b.0 < 5 }
    ensures { result ≡ may_heal register.now.shape.n (keeps_in register.now.shape) (seen_as register.now) s.0 b.0 (Request.Lock domain area) }
{
    match domain {
        Domain::Work => may_lock_in_heal(register, s, b, area),
        Domain::Heal => may_take_heal(register, s, b, area),
    }
}

fn may_unlock(register: &Register, s: BrickId, b: BrickId, domain: Domain, area: Area) -> bool
    requires few { register.now.shape.n ≤ 5 }
    requires source { s.0 < 5 }
    requires small { b.0 < 5 }
    ensures { result ≡ may_heal register.now.shape.n (keeps_in register.now.shape) (seen_as register.now) s.0 b.0 (Request.Unlock domain area) }
{
    match domain {
        Domain::Work => may_unlock_work(register, s, b, area),
        Domain::Heal => may_unlock_heal(register, s, b, area),
    }
}

/// Whether a heal may ask this, if the copy is its source. It stands apart, so that a copy which can't be the source costs
/// one test of a set.
#[inline(never)]
pub(crate) fn may_heal(register: &Register, s: BrickId, b: BrickId, request: &Request) -> bool
    requires few { register.now.shape.n ≤ 5 }
    requires source { s.0 < 5 }
    requires small { b.0 < 5 }
    ensures { result ≡ may_heal register.now.shape.n (keeps_in register.now.shape) (seen_as register.now) s.0 b.0 request.now }
{
    match request {
        Request::Lock { domain, area } => may_lock(register, s, b, *domain, *area),
        Request::Unlock { domain, area } => may_unlock(register, s, b, *domain, *area),
        Request::Look { gfid } => may_look(register, s, b, *gfid),
        Request::ReadBytes { gfid, at, len } => may_read_bytes(register, s, b, *gfid, *at, *len),
        Request::List { gfid } => may_list(register, s, b, *gfid),
        Request::ReadAttrs { gfid } => may_read_attrs(register, s, b, *gfid),
        Request::Pre { gfid, kind } => may_raise_in_heal(register, s, b, *gfid, *kind),
        Request::Mend { repair } => may_repair(register, s, b, repair),
        Request::Settle { gfid, kind, less } => may_settle(register, s, b, *gfid, *kind, less),
        Request::ReadName { .. }
        | Request::ReadAttr { .. }
        | Request::Index
        | Request::Apply { .. }
        | Request::Post { .. } => false,
    }
}

/// Whether the copy may be the source by all the lines, and as the source it allows the request.
#[inline]
pub(crate) fn is_allowed_by(register: &Register, s: BrickId, b: BrickId, request: &Request) -> bool
    requires few { register.now.shape.n ≤ 5 }
    requires source { s.0 < 5 }
    requires small { b.0 < 5 }
    ensures { result ≡ allows register.now.shape.n (keeps_in register.now.shape) (seen_as register.now) b.0 request.now s.0 }
{
    register.possible.has(s) && may_heal(register, s, b, request)
}

/// The copies that may still be the source, one by one.
pub(crate) fn each_possible(register: &Register, b: BrickId, request: &Request) -> BrickSet
    requires few { register.now.shape.n ≤ 5 }
    requires small { b.0 < 5 }
    ensures { result ≡ still_possible register.now b.0 request.now }
{
    BrickSet::of_five(
        is_allowed_by(register, BrickId(0), b, request),
        is_allowed_by(register, BrickId(1), b, request),
        is_allowed_by(register, BrickId(2), b, request),
        is_allowed_by(register, BrickId(3), b, request),
        is_allowed_by(register, BrickId(4), b, request),
    )
}

fn some_allows(register: &Register, b: BrickId, request: &Request) -> bool
    requires few { register.now.shape.n ≤ 5 }
    requires small { b.0 < 5 }
    ensures { result ≡ any register.now.shape.n (allows register.now.shape.n (keeps_in register.now.shape) (seen_as register.now) b.0 request.now) }
{
    has_some(register.shape.n, each_possible(register, b, request))
}

pub(crate) fn gives_back(request: &Request) -> bool
    ensures { result ≡ is_unlock request.now }
{
    match request {
        Request::Unlock { .. } => true,
        _ => false,
    }
}

/// Whether some source allows the request; a broken heal only unlocks.
pub(crate) fn may_ask_in_heal(register: &Register, b: BrickId, request: &Request) -> bool
    requires few { register.now.shape.n ≤ 5 }
    requires small { b.0 < 5 }
    ensures { result ≡ may_ask_inside register.now.shape.n (keeps_in register.now.shape) (seen_as register.now) b.0 request.now }
{
    if register.broken {
        gives_back(request)
    } else {
        some_allows(register, b, request)
    }
}
