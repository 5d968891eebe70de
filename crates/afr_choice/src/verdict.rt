//! Who accuses whom, which copies are good, and what that makes of a look.
ghost use Rattle.std.specs.Prelude.{◌≡◌, ℕ, ◌<◌, ◌≤◌, true, false};
ghost use Rattle.afr_choice.specs.Verdict.{is_holder, is_copy, shown_missed, accuses_at, accusers_of, is_accused, is_good, holders_of, copies_of, good_copies, verdict_of};

use crate::looked::{Looked, marks_shown};
use afr_base::{BrickId, BrickSet, Kind, Shape};
use afr_object::View;

/// What may be made of the copies that were looked at.
#[derive(Clone, Copy, Debug, PartialEq, Eq)]
pub enum Verdict {
    /// The bricks that were reached are no majority.
    Short,
    /// None of them has a copy.
    Bare,
    /// Each copy is accused: split-brain.
    Split,
    /// The good copies.
    Sources(BrickSet),
}

/// The bricks that were reached and have the object.
pub fn holders(looked: &Looked) -> BrickSet
    ensures { result ≡ holders_of looked.now }
{
    let mut set = BrickSet::none();
    for b in 0..5u8 {
        set = set.with_if(has_view(looked, BrickId(b)), BrickId(b));
    }
    set
}

/// The copies of this kind that no brick accuses.
pub fn good(shape: &Shape, looked: &Looked, kind: Kind) -> BrickSet
    ensures { result ≡ good_copies shape.now looked.now kind }
{
    let copies = copies(shape, looked, kind);
    good_of(copies, shape, looked, kind)
}

/// The same, of these copies. Where no view accuses a brick, it is all of them, as it mostly is.
fn good_of(copies: BrickSet, shape: &Shape, looked: &Looked, kind: Kind) -> BrickSet
    requires { copies ≡ copies_of shape.now looked.now kind }
    ensures { result ≡ good_copies shape.now looked.now kind }
{
    if accuses_nobody(looked, kind) {
        return copies;
    }
    good_among(shape, looked, kind)
}

/// The same, where some view accuses a brick.
#[inline(never)]
fn good_among(shape: &Shape, looked: &Looked, kind: Kind) -> BrickSet
    ensures { result ≡ good_copies shape.now looked.now kind }
{
    let mut set = BrickSet::none();
    for b in 0..5u8 {
        set = set.with_if(is_clean(shape, looked, kind, BrickId(b)), BrickId(b));
    }
    set
}

/// Whether no view accuses a brick. No says nothing.
fn accuses_nobody(looked: &Looked, kind: Kind) -> bool
    ensures { result ≡ true → (c : ℕ) → c < 5 → is_accused kind looked.now c ≡ false }
{
    for x in 0..5u8 {
        if accuses_some(&looked.views[x as usize], kind) {
            return false;
        }
    }
    true
}

/// Whether the view accuses a brick.
fn accuses_some(view: &Option<View>, kind: Kind) -> bool
    ensures { result ≡ false → (c : ℕ) → c < 5 → shown_missed kind c view.now ≡ false }
{
    match view {
        Some(view) => !marks_shown(view, kind).accuses_nobody(),
        None => false,
    }
}

/// What the copies of this kind come to.
pub fn judge(shape: &Shape, looked: &Looked, kind: Kind) -> Verdict
    requires { shape.now.n ≤ 5 }
    ensures { result ≡ verdict_of shape.now looked.now kind }
{
    if !looked.reached.has_quorum(shape.n) {
        return Verdict::Short;
    }
    let copies = copies(shape, looked, kind);
    if copies.is_empty() {
        return Verdict::Bare;
    }
    let sources = good_of(copies, shape, looked, kind);
    if sources.is_empty() {
        return Verdict::Split;
    }
    Verdict::Sources(sources)
}

/// The copies of what this kind is about, accused or not.
pub fn copies(shape: &Shape, looked: &Looked, kind: Kind) -> BrickSet
    ensures { result ≡ copies_of shape.now looked.now kind }
{
    let mut set = BrickSet::none();
    for b in 0..5u8 {
        set = set.with_if(has_copy(shape, looked, kind, BrickId(b)), BrickId(b));
    }
    set
}

fn has_view(looked: &Looked, b: BrickId) -> bool
    requires { b.0 < 5 }
    ensures { result ≡ is_holder looked.now b.0 }
{
    looked.reached.has(b) && looked.views[b.0 as usize].is_some()
}

/// Whether the brick has such a copy.
pub fn has_copy(shape: &Shape, looked: &Looked, kind: Kind, b: BrickId) -> bool
    requires { b.0 < 5 }
    ensures { result ≡ is_copy shape.now looked.now kind b.0 }
{
    has_view(looked, b) && shape.keeps(kind, b)
}

fn is_clean(shape: &Shape, looked: &Looked, kind: Kind, b: BrickId) -> bool
    requires { b.0 < 5 }
    ensures { result ≡ is_good shape.now looked.now kind b.0 }
{
    has_copy(shape, looked, kind, b) && !is_blamed(looked, kind, b)
}

/// Whether a brick that was reached accuses brick `c`.
fn is_blamed(looked: &Looked, kind: Kind, c: BrickId) -> bool
    requires { c.0 < 5 }
    ensures { result ≡ is_accused kind looked.now c.0 }
{
    for x in 0..5u8 {
        if blames(looked, kind, BrickId(x), c) {
            return true;
        }
    }
    false
}

/// The bricks that were reached and accuse brick `c`.
pub fn accusers(looked: &Looked, kind: Kind, c: BrickId) -> BrickSet
    requires { c.0 < 5 }
    ensures { result ≡ accusers_of kind c.0 looked.now }
{
    let mut set = BrickSet::none();
    for x in 0..5u8 {
        set = set.with_if(blames(looked, kind, BrickId(x), c), BrickId(x));
    }
    set
}

fn blames(looked: &Looked, kind: Kind, x: BrickId, c: BrickId) -> bool
    requires by { x.0 < 5 }
    requires whom { c.0 < 5 }
    ensures { result ≡ accuses_at kind x.0 c.0 looked.now }
{
    looked.reached.has(x) && shows_missed(&looked.views[x.0 as usize], kind, c)
}

/// Whether the view has operations that brick `c` missed: the one test of an accusation.
pub(crate) fn shows_missed(view: &Option<View>, kind: Kind, c: BrickId) -> bool
    requires { c.0 < 5 }
    ensures { result ≡ shown_missed kind c.0 view.now }
{
    match view {
        Some(view) => marks_shown(view, kind).accuses(c),
        None => false,
    }
}
