//! The bricks that each step of a heal asks, if one copy is its source.
ghost use Rattle.std.specs.Prelude.{◌≡◌, ℕ, ◌<◌, ◌≤◌, ◌&&◌, not};
ghost use Rattle.afr_base.specs.declared.ids.Kind.{Kind};
ghost use Rattle.afr_model_moves.specs.Register.{asked_in, good, holder, over};
ghost use Rattle.afr_model_moves.specs.Steps.{is_only, locks_at, looks_at, mends_at, other, passed, pres_at, reads_at, set_of, settles_at, sink, turn};
ghost use Rattle.afr_model_moves.specs.Keeps.{keeps_in};
ghost use Rattle.afr_model_moves.specs.Sets.{any};
ghost use Rattle.afr_base.specs.Bricks.{member};
ghost use Rattle.afr_discipline.specs.Left.{AreLeft};
ghost use Rattle.afr_discipline.specs.Stands.{heal_part_of, seen_as, step_of, views_of};

use crate::note_steps::asked_at;
use crate::register::{HealPart, Register, Step};
use crate::steps::rank;
use crate::views::has_some;
use afr_base::{BrickId, BrickSet, Kind};
use afr_choice::{good_shown, holds, keeps, shown};

/// A holder by the first looks that is neither the source nor an arbiter.
pub(crate) fn is_sink(register: &Register, s: BrickId, x: BrickId) -> bool
    requires { x.0 < 5 }
    ensures { result ≡ sink (keeps_in register.now.shape) (seen_as register.now) s.0 x.0 }
{
    holds(&register.seen, x) && x.0 != s.0 && keeps(register.shape, x, Kind::Bytes)
}

/// A holder by the first looks that is not the source.
pub(crate) fn is_other(register: &Register, s: BrickId, x: BrickId) -> bool
    requires { x.0 < 5 }
    ensures { result ≡ other (seen_as register.now) s.0 x.0 }
{
    holds(&register.seen, x) && x.0 != s.0
}

/// The bricks with a copy by the first looks.
fn holders(register: &Register) -> BrickSet
    ensures { (x : ℕ) → x < 5 → member result x ≡ holder (views_of register.now.seen) x }
{
    shown(&register.seen)
}

/// Those of them that are not the source.
fn others(register: &Register, s: BrickId) -> BrickSet
    ensures { (x : ℕ) → x < 5 → member result x ≡ other (seen_as register.now) s.0 x }
{
    holders(register).minus(only(s))
}

/// Those of them that keep bytes.
fn sinks(register: &Register, s: BrickId) -> BrickSet
    ensures { (x : ℕ) → x < 5 → member result x ≡ sink (keeps_in register.now.shape) (seen_as register.now) s.0 x }
{
    let others = others(register, s);
    if register.shape.arbiter {
        return others.without(BrickId(2));
    }
    others
}

/// The copies of names that are good by the first looks.
fn good_names(register: &Register) -> BrickSet
    requires { register.now.shape.n ≤ 5 }
    ensures { (x : ℕ) → x < 5 → member result x ≡ good register.now.shape.n (keeps_in register.now.shape) Kind.Names (views_of register.now.seen) x }
{
    good_shown(register.shape, &register.seen, Kind::Names)
}

/// The one brick.
#[tactic(auto, using(afr_base::proofs::OfFive::member_picked))]
fn only(s: BrickId) -> BrickSet
    ensures { (x : ℕ) → x < 5 → member result x ≡ is_only s.0 x }
{
    BrickSet::of_five(0 == s.0, 1 == s.0, 2 == s.0, 3 == s.0, 4 == s.0)
}

fn read(register: &Register, s: BrickId) -> BrickSet
    requires { register.now.shape.n ≤ 5 }
    ensures { (x : ℕ) → x < 5 → member result x ≡ reads_at register.now.shape.n (keeps_in register.now.shape) (seen_as register.now) s.0 register.now.kind (heal_part_of register.now.part) x }
{
    match (register.kind, register.part) {
        (Kind::Bytes, HealPart::Piece) => only(s),
        (Kind::Bytes, HealPart::Opening) => BrickSet::none(),
        (Kind::Bytes, HealPart::Finish) => BrickSet::none(),
        (Kind::Attrs, _) => only(s),
        (Kind::Names, _) => good_names(register),
    }
}

fn raised_first(register: &Register, s: BrickId) -> BrickSet
    ensures { (x : ℕ) → x < 5 → member result x ≡ pres_at (keeps_in register.now.shape) (seen_as register.now) s.0 register.now.kind (heal_part_of register.now.part) x }
{
    match (register.kind, register.part) {
        (Kind::Bytes, HealPart::Opening) => sinks(register, s),
        (Kind::Bytes, HealPart::Piece) => BrickSet::none(),
        (Kind::Bytes, HealPart::Finish) => BrickSet::none(),
        (Kind::Attrs, _) => others(register, s),
        (Kind::Names, _) => holders(register),
    }
}

fn mended(register: &Register, s: BrickId) -> BrickSet
    ensures { (x : ℕ) → x < 5 → member result x ≡ mends_at (keeps_in register.now.shape) (seen_as register.now) s.0 register.now.kind (heal_part_of register.now.part) x }
{
    match (register.kind, register.part) {
        (Kind::Bytes, HealPart::Finish) => BrickSet::none(),
        (Kind::Bytes, HealPart::Opening) => sinks(register, s),
        (Kind::Bytes, HealPart::Piece) => sinks(register, s),
        (Kind::Attrs, _) => others(register, s),
        (Kind::Names, _) => holders(register),
    }
}

fn settled(register: &Register) -> BrickSet
    ensures { (x : ℕ) → x < 5 → member result x ≡ settles_at (seen_as register.now) register.now.kind (heal_part_of register.now.part) x }
{
    match (register.kind, register.part) {
        (Kind::Bytes, HealPart::Finish) => holders(register),
        (Kind::Bytes, HealPart::Opening) => BrickSet::none(),
        (Kind::Bytes, HealPart::Piece) => BrickSet::none(),
        (Kind::Attrs, _) => holders(register),
        (Kind::Names, _) => holders(register),
    }
}

pub(crate) fn is_locked(register: &Register, x: BrickId) -> bool
    requires { x.0 < 5 }
    ensures { result ≡ locks_at (seen_as register.now) (heal_part_of register.now.part) x.0 }
{
    match register.part {
        HealPart::Opening => register.healing.has(x),
        HealPart::Piece | HealPart::Finish => register.seen.reached.has(x),
    }
}

/// The bricks that are asked for this part's Work locks.
pub(crate) fn locked(register: &Register) -> BrickSet
    ensures { (x : ℕ) → x < 5 → member result x ≡ locks_at (seen_as register.now) (heal_part_of register.now.part) x }
{
    match register.part {
        HealPart::Opening => register.healing,
        HealPart::Piece | HealPart::Finish => register.seen.reached,
    }
}

fn looked_at(register: &Register) -> BrickSet
    ensures { (x : ℕ) → x < 5 → member result x ≡ looks_at (seen_as register.now) (heal_part_of register.now.part) x }
{
    match register.part {
        HealPart::Opening => register.held,
        HealPart::Piece | HealPart::Finish => register.seen.reached,
    }
}

/// The bricks that the step has not asked.
pub(crate) fn left_in(register: &Register, s: BrickId, step: Step) -> BrickSet
    requires { register.now.shape.n ≤ 5 }
    ensures { AreLeft register.now s.0 step result }
{
    match step {
        Step::HealLocks => BrickSet::all(5).minus(asked_at(register, step)),
        Step::WorkLocks => locked(register).minus(asked_at(register, step)),
        Step::Looks => looked_at(register).minus(asked_at(register, step)),
        Step::Reads => read(register, s).minus(asked_at(register, step)),
        Step::HealPres => raised_first(register, s).minus(asked_at(register, step)),
        Step::Mends => mended(register, s).minus(asked_at(register, step)),
        Step::Settles => settled(register).minus(asked_at(register, step)),
        Step::Unlocks => register.held.minus(asked_at(register, step)),
        Step::HealUnlocks => register.healing.minus(asked_at(register, step)),
        Step::Untouched | Step::Open | Step::Pres | Step::Applies | Step::Posts => {
            BrickSet::none()
        }
    }
}

/// Whether each brick of the step below a number was asked.
#[tactic(auto, using(crate::proofs::LeftLemmas::over_is_none_left))]
pub(crate) fn is_over(register: &Register, s: BrickId, step: Step, upto: u8) -> bool
    requires few { register.now.shape.n ≤ 5 }
    requires small { upto ≤ 5 }
    ensures { result ≡ over upto (set_of register.now.shape.n (keeps_in register.now.shape) (seen_as register.now) s.0 (step_of step)) (asked_in (seen_as register.now) (step_of step)) }
{
    !has_some(upto, left_in(register, s, step))
}

/// Whether the step is behind the actor, or the present one and over.
pub(crate) fn has_passed(register: &Register, s: BrickId, step: Step) -> bool
    requires { register.now.shape.n ≤ 5 }
    ensures { result ≡ passed register.now.shape.n (keeps_in register.now.shape) (seen_as register.now) s.0 (step_of step) }
{
    rank(step) < rank(register.step) || is_over(register, s, step, register.shape.n)
}

/// Whether each brick of a set below a number was asked.
pub fn are_asked(upto: u8, set: BrickSet, asked: BrickSet) -> bool
    requires { upto ≤ 5 }
    ensures { result ≡ over upto (member set) (member asked) }
{
    !has_some(upto, set.minus(asked))
}

fn is_lowest(set: BrickSet, b: BrickId) -> bool
    requires { b.0 < 5 }
    ensures { result ≡ (member set b.0 && not (any b.0 (member set))) }
{
    set.has(b) && !has_some(b.0, set)
}

/// Whether the brick is the lowest that the step has not asked, and no later step has begun.
pub(crate) fn is_turn(register: &Register, s: BrickId, step: Step, b: BrickId) -> bool
    requires few { register.now.shape.n ≤ 5 }
    requires small { b.0 < 5 }
    ensures { result ≡ turn register.now.shape.n (keeps_in register.now.shape) (seen_as register.now) s.0 (step_of step) b.0 }
{
    if rank(step) < rank(register.step) {
        return false;
    }
    is_lowest(left_in(register, s, step), b)
}
