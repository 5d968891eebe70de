//! Which request a heal may make, if one copy is its source.
ghost use Rattle.std.specs.Prelude.{◌≡◌, ◌<◌, ◌≤◌, ◌&&◌, ◌||◌, nat_lt, if◌then◌else◌, not, false};
ghost use Rattle.afr_base.specs.Bricks.{member};
ghost use Rattle.afr_model_moves.specs.Sets.{empty};
ghost use Rattle.afr_model_moves.specs.Rules.{heal_area};
ghost use Rattle.afr_model_moves.specs.Register.{is_finish, len_of, over, piece_area, whole_area};
ghost use Rattle.afr_model_moves.specs.Steps.{after_unlocks, is_lowest, is_next, is_whole, locks_at, may_heal, may_heal_work, onward, turn};
ghost use Rattle.afr_lines.specs.Overlap.{same_area};
ghost use Rattle.afr_base.specs.Kinds.{same_kind};
ghost use Rattle.afr_model_moves.specs.Keeps.{keeps_in};
ghost use Rattle.afr_discipline.specs.Stands.{heal_part_of, seen_as, step_of, views_of};

use crate::areas::{is_same_area, is_same_kind, is_the_area};
use crate::heal_sets::{are_asked, is_locked, is_over, is_turn, locked};
use crate::heals::{has_read, has_settled, is_going_on, is_onward, len_at};
use crate::outside::is_busy;
use crate::register::{HealPart, Register, Step};
use crate::steps::{is_same_step, rank};
use afr_base::{BrickId, BrickSet, FIRST_ATTRIBUTE, Gfid, HEAL_BLOCK, Kind};
use afr_lines::{Area, Domain, Request};

pub(crate) fn whole(g: Gfid, kind: Kind) -> Area
    ensures { result ≡ whole_area g.0 kind }
{
    match kind {
        Kind::Bytes => Area::Range {
            gfid: g,
            from: 0,
            to: FIRST_ATTRIBUTE,
        },
        Kind::Attrs => Area::Range {
            gfid: g,
            from: FIRST_ATTRIBUTE,
            to: FIRST_ATTRIBUTE + 1,
        },
        Kind::Names => Area::Name {
            gfid: g,
            name: None,
        },
    }
}

fn piece(g: Gfid, at: u32) -> Area
    ensures { result ≡ piece_area g.0 at }
{
    Area::Range {
        gfid: g,
        from: u64::from(at),
        to: u64::from(at) + u64::from(HEAL_BLOCK),
    }
}

pub(crate) fn heal_range(g: Gfid) -> Area
    ensures { result ≡ heal_area g.0 }
{
    Area::Range {
        gfid: g,
        from: 0,
        to: FIRST_ATTRIBUTE,
    }
}

fn is_all_of(area: Area, g: Gfid) -> bool
    ensures { result ≡ is_whole area g.0 }
{
    is_same_area(whole(g, Kind::Bytes), area)
        || is_same_area(whole(g, Kind::Attrs), area)
        || is_same_area(whole(g, Kind::Names), area)
}

/// Whether a majority has the Heal lock, and the area is all of one kind of the object.
fn is_first_lock(register: &Register, s: BrickId, area: Area) -> bool
    requires { register.now.shape.n ≤ 5 }
    ensures { result ≡ is_next register.now.shape.n (seen_as register.now) s.0 area }
{
    rank(register.step) <= rank(Step::HealLocks)
        && is_over(register, s, Step::HealLocks, register.shape.n)
        && register.healing.has_quorum(register.shape.n)
        && is_all_of(area, register.object)
}

fn is_next_part(register: &Register, s: BrickId, area: Area) -> bool
    requires { s.0 < 5 }
    ensures { result ≡ (if nat_lt register.now.upto (len_of (views_of register.now.seen s.0)) then same_area (piece_area register.now.object.0 register.now.upto) area else same_area (whole_area register.now.object.0 Kind.Bytes) area) }
{
    if register.upto < len_at(&register.seen, s) {
        is_same_area(piece(register.object, register.upto), area)
    } else {
        is_same_area(whole(register.object, Kind::Bytes), area)
    }
}

fn is_later_lock(register: &Register, s: BrickId, area: Area) -> bool
    requires few { register.now.shape.n ≤ 5 }
    requires small { s.0 < 5 }
    ensures { result ≡ after_unlocks register.now.shape.n (seen_as register.now) area s.0 }
{
    is_same_step(register.step, Step::Unlocks)
        && !is_busy(register)
        && is_same_kind(register.kind, Kind::Bytes)
        && is_next_part(register, s, area)
}

/// The lowest brick of this part's Work locks that was not asked.
fn is_lowest_unlocked(register: &Register, b: BrickId) -> bool
    requires { b.0 < 5 }
    ensures { result ≡ is_lowest (locks_at (seen_as register.now) (heal_part_of register.now.part)) (member register.now.asked) b.0 }
{
    is_locked(register, b) && !register.asked.has(b) && are_left_out(register, b.0)
}

pub(crate) fn are_left_out(register: &Register, upto: u8) -> bool
    requires { upto ≤ 5 }
    ensures { result ≡ over upto (locks_at (seen_as register.now) (heal_part_of register.now.part)) (member register.now.asked) }
{
    are_asked(upto, locked(register), register.asked)
}

/// The lowest brick of the set.
fn is_first(set: BrickSet, b: BrickId) -> bool
    requires { b.0 < 5 }
    ensures { result ≡ is_lowest (member set) empty b.0 }
{
    set.has(b) && are_missing(set, b.0)
}

fn are_missing(set: BrickSet, upto: u8) -> bool
    requires { upto ≤ 5 }
    ensures { result ≡ over upto (member set) empty }
{
    are_asked(upto, set, BrickSet::none())
}

fn is_finishing(part: HealPart) -> bool
    ensures { result ≡ is_finish (heal_part_of part) }
{
    match part {
        HealPart::Finish => true,
        HealPart::Opening | HealPart::Piece => false,
    }
}

/// A Work lock of a heal, at the lowest brick that was not granted or left out.
pub(crate) fn may_lock_in_heal(register: &Register, s: BrickId, b: BrickId, area: Area) -> bool
    requires few { register.now.shape.n ≤ 5 }
    requires source { s.0 < 5 }
    requires small { b.0 < 5 }
    ensures { result ≡ may_heal_work register.now.shape.n (keeps_in register.now.shape) (seen_as register.now) s.0 b.0 area }
{
    if is_same_step(register.step, Step::WorkLocks) {
        is_the_area(register.area, area) && is_lowest_unlocked(register, b)
    } else if is_same_step(register.step, Step::HealLocks) {
        is_first_lock(register, s, area) && is_first(register.healing, b)
    } else {
        is_later_lock(register, s, area)
            && !is_finishing(register.part)
            && is_first(register.seen.reached, b)
    }
}

/// A heal's next Heal lock.
pub(crate) fn may_take_heal(register: &Register, s: BrickId, b: BrickId, area: Area) -> bool
    requires few { register.now.shape.n ≤ 5 }
    requires small { b.0 < 5 }
    ensures { result ≡ may_heal register.now.shape.n (keeps_in register.now.shape) (seen_as register.now) s.0 b.0 (Request.Lock Domain.Heal area) }
{
    is_same_step(register.step, Step::HealLocks)
        && is_turn(register, s, Step::HealLocks, b)
        && is_same_area(heal_range(register.object), area)
}

/// A heal's next look.
pub(crate) fn may_look(register: &Register, s: BrickId, b: BrickId, g: Gfid) -> bool
    requires few { register.now.shape.n ≤ 5 }
    requires small { b.0 < 5 }
    ensures { result ≡ may_heal register.now.shape.n (keeps_in register.now.shape) (seen_as register.now) s.0 b.0 (Request.Look g) }
{
    is_same_step(register.step, Step::Looks)
        && is_turn(register, s, Step::Looks, b)
        && g.0 == register.object.0
}

/// A heal's next read, of what its kind is about.
fn may_read(register: &Register, s: BrickId, b: BrickId, g: Gfid, kind: Kind) -> bool
    requires few { register.now.shape.n ≤ 5 }
    requires source { s.0 < 5 }
    requires small { b.0 < 5 }
    ensures { result ≡ onward register.now.shape.n (keeps_in register.now.shape) (seen_as register.now) s.0 g.0 kind && turn register.now.shape.n (keeps_in register.now.shape) (seen_as register.now) s.0 (step_of Step.Reads) b.0 }
{
    is_onward(register, s, g, kind) && is_turn(register, s, Step::Reads, b)
}

pub(crate) fn may_read_attrs(register: &Register, s: BrickId, b: BrickId, g: Gfid) -> bool
    requires few { register.now.shape.n ≤ 5 }
    requires source { s.0 < 5 }
    requires small { b.0 < 5 }
    ensures { result ≡ may_heal register.now.shape.n (keeps_in register.now.shape) (seen_as register.now) s.0 b.0 (Request.ReadAttrs g) }
{
    may_read(register, s, b, g, Kind::Attrs)
}

pub(crate) fn may_list(register: &Register, s: BrickId, b: BrickId, g: Gfid) -> bool
    requires few { register.now.shape.n ≤ 5 }
    requires source { s.0 < 5 }
    requires small { b.0 < 5 }
    ensures { result ≡ may_heal register.now.shape.n (keeps_in register.now.shape) (seen_as register.now) s.0 b.0 (Request.List g) }
{
    may_read(register, s, b, g, Kind::Names)
}

pub(crate) fn may_read_bytes(
    register: &Register,
    s: BrickId,
    b: BrickId,
    g: Gfid,
    at: u32,
    len: u32,
) -> bool
    requires few { register.now.shape.n ≤ 5 }
    requires source { s.0 < 5 }
    requires small { b.0 < 5 }
    ensures { result ≡ may_heal register.now.shape.n (keeps_in register.now.shape) (seen_as register.now) s.0 b.0 (Request.ReadBytes g at len) }
{
    may_read(register, s, b, g, Kind::Bytes) && at == register.upto && len == HEAL_BLOCK
}

pub(crate) fn may_raise_in_heal(
    register: &Register,
    s: BrickId,
    b: BrickId,
    g: Gfid,
    kind: Kind,
) -> bool
    requires few { register.now.shape.n ≤ 5 }
    requires source { s.0 < 5 }
    requires small { b.0 < 5 }
    ensures { result ≡ may_heal register.now.shape.n (keeps_in register.now.shape) (seen_as register.now) s.0 b.0 (Request.Pre g kind) }
{
    is_onward(register, s, g, kind)
        && has_read(register, s)
        && is_turn(register, s, Step::HealPres, b)
}

pub(crate) fn may_unlock_work(register: &Register, s: BrickId, b: BrickId, area: Area) -> bool
    requires few { register.now.shape.n ≤ 5 }
    requires source { s.0 < 5 }
    requires small { b.0 < 5 }
    ensures { result ≡ may_heal register.now.shape.n (keeps_in register.now.shape) (seen_as register.now) s.0 b.0 (Request.Unlock Domain.Work area) }
{
    is_going_on(register, s)
        && has_settled(register, s)
        && is_turn(register, s, Step::Unlocks, b)
        && is_the_area(register.area, area)
}

fn has_parts_left(register: &Register) -> bool
    ensures { result ≡ same_kind register.now.kind Kind.Bytes && not (is_finish (heal_part_of register.now.part)) }
{
    is_same_kind(register.kind, Kind::Bytes) && !is_finishing(register.part)
}

pub(crate) fn may_unlock_heal(register: &Register, s: BrickId, b: BrickId, area: Area) -> bool
    requires few { register.now.shape.n ≤ 5 }
    requires source { s.0 < 5 }
    requires small { b.0 < 5 }
    ensures { result ≡ may_heal register.now.shape.n (keeps_in register.now.shape) (seen_as register.now) s.0 b.0 (Request.Unlock Domain.Heal area) }
{
    is_going_on(register, s)
        && has_settled(register, s)
        && !is_busy(register)
        && !has_parts_left(register)
        && is_turn(register, s, Step::HealUnlocks, b)
        && is_same_area(heal_range(register.object), area)
}
