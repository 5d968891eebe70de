//! Which moves a work may make outside its heals.
ghost use Rattle.std.specs.Prelude.{◌≡◌, ◌<◌, ◌≤◌, false, suc, ◌==◌, ◌&&◌, not, nat_lt};
ghost use Rattle.afr_base.specs.Bricks.{member};
ghost use Rattle.afr_model_moves.specs.Rules.{busy};
ghost use Rattle.afr_model_moves.specs.Register.{all};
ghost use Rattle.afr_model_moves.specs.Keeps.{keeps_in};
ghost use Rattle.afr_discipline.specs.Stands.{number_of, seen_as};
ghost use Rattle.afr_discipline.specs.Tests.{last_posted, may_apply, may_ask_outside, may_begin, may_end, may_move_outside, may_open, may_post, may_pre, may_work, misses, one_of, same_flag};

use crate::areas::{
    is_an_area, is_in_plane, is_low, is_of_heals, is_the_area, is_within, kind_of_change,
    kind_of_some,
};
use crate::of_five::all_of;
use crate::register::{Move, Register, Step};
use crate::steps::{is_once, is_same_step};
use crate::views::{fits_all, has_some, holders_suffice, suffices};
use afr_base::{BrickId, BrickSet, Gfid, Kind};
use afr_choice::holds;
use afr_lines::{Area, Domain, Request};
use afr_object::Change;

/// Whether the actor holds a Work lock.
pub(crate) fn is_busy(register: &Register) -> bool
    requires { register.now.shape.n ≤ 5 }
    ensures { result ≡ busy register.now.shape.n (seen_as register.now).law }
{
    has_some(register.shape.n, register.held) || has_some(register.shape.n, register.second_held)
}

fn has_posted(register: &Register) -> bool
    requires { register.now.shape.n ≤ 5 }
    ensures { result ≡ last_posted register.now.shape.n (seen_as register.now).law }
{
    register.begun.is_none() || register.post.has_quorum(register.shape.n)
}

/// Its area, its second, or the first second.
fn is_named(register: &Register, area: Area) -> bool
    ensures { result ≡ one_of (seen_as register.now).law area }
{
    is_the_area(register.area, area)
        || register.second.is_none()
        || is_the_area(register.second, area)
}

fn may_lock(register: &Register, area: Area) -> bool
    requires { register.now.shape.n ≤ 5 }
    ensures { result ≡ may_work register.now.shape.n (seen_as register.now) area }
{
    is_an_area(area)
        && if is_busy(register) {
            !register.unlocked && is_named(register, area)
        } else {
            has_posted(register)
        }
}

fn may_start_heal(register: &Register, b: BrickId, area: Area) -> bool
    ensures { result ≡ may_open (seen_as register.now) b.0 area }
{
    is_same_step(register.step, Step::Untouched) && b.0 == 0 && is_of_heals(area)
}

fn may_begin_now(register: &Register, change: &Change) -> bool
    requires { register.now.shape.n ≤ 5 }
    ensures { result ≡ may_begin register.now.shape.n (keeps_in register.now.shape) (seen_as register.now) change.now }
{
    let shape = register.shape;
    let looked = &register.looked;
    register.begun.is_none()
        && !register.unlocked
        && is_within(register.area, change)
        && is_low(change)
        && fits_all(shape.n, looked, change)
        && looked.reached.has_quorum(shape.n)
        && holders_suffice(shape, looked, kind_of_change(change))
}

fn may_raise(register: &Register, b: BrickId, g: Gfid, kind: Kind) -> bool
    requires { b.0 < 5 }
    ensures { result ≡ may_pre (seen_as register.now) b.0 g.0 kind }
{
    register.begun.is_some()
        && is_in_plane(register.area, g, kind)
        && holds(&register.looked, b)
        && is_once(register, Step::Pres, b)
}

fn is_own(begun: Option<u32>, attempt: u32) -> bool
    ensures { result ≡ (number_of begun == suc attempt) }
{
    match begun {
        Some(begun) => begun == attempt,
        None => false,
    }
}

fn may_carry_out(register: &Register, b: BrickId, attempt: u32) -> bool
    requires few { register.now.shape.n ≤ 5 }
    requires small { b.0 < 5 }
    ensures { result ≡ may_apply register.now.shape.n (keeps_in register.now.shape) (seen_as register.now) b.0 attempt }
{
    is_own(register.begun, attempt)
        && register.pre.has(b)
        && suffices(
            register.shape,
            &register.looked,
            kind_of_some(register.area),
            register.pre,
        )
        && is_once(register, Step::Applies, b)
}

fn is_missed(n: u8, done: BrickSet, missed: BrickSet, c: BrickId) -> bool
    requires { c.0 < 5 }
    ensures { result ≡ same_flag (member missed c.0) (nat_lt c.0 n && not (member done c.0)) }
{
    missed.has(c) == (c.0 < n && !done.has(c))
}

fn misses_each(n: u8, done: BrickSet, missed: BrickSet) -> bool
    ensures { result ≡ all 5 (λ c. same_flag (member missed c) (nat_lt c n && not (member done c))) }
{
    all_of(
        5,
        is_missed(n, done, missed, BrickId(0)),
        is_missed(n, done, missed, BrickId(1)),
        is_missed(n, done, missed, BrickId(2)),
        is_missed(n, done, missed, BrickId(3)),
        is_missed(n, done, missed, BrickId(4)),
    )
}

/// Whether the missed bricks are exactly the others of the volume.
fn are_missed(n: u8, done: BrickSet, missed: BrickSet) -> bool
    ensures { result ≡ misses n (member done) missed }
{
    missed.minus(BrickSet::all(5)).is_empty() && misses_each(n, done, missed)
}

fn may_close(
    register: &Register,
    b: BrickId,
    attempt: u32,
    g: Gfid,
    kind: Kind,
    missed: BrickSet,
) -> bool
    requires few { register.now.shape.n ≤ 5 }
    requires small { b.0 < 5 }
    ensures { result ≡ may_post register.now.shape.n (keeps_in register.now.shape) (seen_as register.now) b.0 attempt g.0 kind missed }
{
    is_own(register.begun, attempt)
        && is_in_plane(register.area, g, kind)
        && register.done.has(b)
        && suffices(register.shape, &register.looked, kind, register.done)
        && is_once(register, Step::Posts, b)
        && are_missed(register.shape.n, register.done, missed)
}

fn may_ask(register: &Register, b: BrickId, request: &Request) -> bool
    requires few { register.now.shape.n ≤ 5 }
    requires small { b.0 < 5 }
    ensures { result ≡ may_ask_outside register.now.shape.n (keeps_in register.now.shape) (seen_as register.now) b.0 request.now }
{
    match request {
        Request::Lock { domain, area } => may_take(register, b, *domain, *area),
        Request::Pre { gfid, kind } => may_raise(register, b, *gfid, *kind),
        Request::Apply { attempt } => may_carry_out(register, b, *attempt),
        Request::Post {
            attempt,
            gfid,
            kind,
            missed,
        } => may_close(register, b, *attempt, *gfid, *kind, *missed),
        Request::Mend { .. } | Request::Settle { .. } => false,
        Request::Unlock { .. }
        | Request::Look { .. }
        | Request::ReadBytes { .. }
        | Request::ReadName { .. }
        | Request::List { .. }
        | Request::ReadAttr { .. }
        | Request::ReadAttrs { .. }
        | Request::Index => true,
    }
}

fn may_take(register: &Register, b: BrickId, domain: Domain, area: Area) -> bool
    requires { register.now.shape.n ≤ 5 }
    ensures { result ≡ may_ask_outside register.now.shape.n (keeps_in register.now.shape) (seen_as register.now) b.0 (Request.Lock domain area) }
{
    match domain {
        Domain::Work => may_lock(register, area),
        Domain::Heal => may_start_heal(register, b, area),
    }
}

fn may_finish(register: &Register, ok: bool) -> bool
    requires { register.now.shape.n ≤ 5 }
    ensures { result ≡ may_end register.now.shape.n (seen_as register.now) ok }
{
    !is_busy(register)
        && !has_some(register.shape.n, register.healing)
        && (!ok || has_posted(register))
}

/// Whether the discipline allows the move outside a heal.
pub(crate) fn is_allowed(register: &Register, step: &Move<'_>) -> bool
    requires { register.now.shape.n ≤ 5 }
    ensures { result ≡ may_move_outside register.now.shape.n (keeps_in register.now.shape) (seen_as register.now) step.now }
{
    match step {
        Move::Ask(b, request) => b.0 < register.shape.n && may_ask(register, *b, request),
        Move::Begin(change) => may_begin_now(register, change),
        Move::HealBegin(_, _) => false,
        Move::End { ok } => may_finish(register, *ok),
    }
}
