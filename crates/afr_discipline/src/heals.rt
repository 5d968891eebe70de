//! Which move a heal may make, if one copy is its source.
ghost use Rattle.std.specs.Prelude.{◌≡◌, ◌<◌, ◌≤◌, ◌&&◌, slice_index, ◌==◌, ◌||◌, not};
ghost use Rattle.afr_base.specs.Majority.{is_most};
ghost use Rattle.afr_model_moves.specs.Sets.{any};
ghost use Rattle.afr_model_moves.specs.Register.{all, has_number, holder, len_of, shows_number};
ghost use Rattle.afr_model_moves.specs.Steps.{changed, goes_on, goes_on_at, looks_over, mends_over, onward, pres_over, raised, reads_over, settles_over, sink};
ghost use Rattle.afr_model_moves.specs.Keeps.{keeps_in};
ghost use Rattle.afr_discipline.specs.Stands.{heal_part_of, seen_as, views_of};

use crate::areas::is_same_kind;
use crate::heal_sets::{has_passed, is_other, is_sink};
use crate::of_five::all_of;
use crate::register::{HealPart, Register, Step};
use crate::steps::rank;
use crate::views::{has_some, most_hold};
use afr_base::{BrickId, BrickSet, Gfid, Kind, Marks};
use afr_choice::{Looked, holds, is_good, is_unaccused, marks_shown};
use afr_object::View;

fn is_numbered(marks: &Marks) -> bool
    ensures { result ≡ has_number marks.now }
{
    marks.dirty != 0 || accuses_some(marks)
}

fn is_pending(marks: &Marks, c: BrickId) -> bool
    requires { c.0 < 5 }
    ensures { result ≡ not (slice_index marks.now.pending c.0 == 0) }
{
    marks.pending[c.0 as usize] != 0
}

fn accuses_some(marks: &Marks) -> bool
    ensures { result ≡ any 5 (λ c. not (slice_index marks.now.pending c == 0)) }
{
    let accused = BrickSet::of_five(
        is_pending(marks, BrickId(0)),
        is_pending(marks, BrickId(1)),
        is_pending(marks, BrickId(2)),
        is_pending(marks, BrickId(3)),
        is_pending(marks, BrickId(4)),
    );
    has_some(5, accused)
}

fn shows(view: &Option<View>, kind: Kind) -> bool
    ensures { result ≡ shows_number kind view.now }
{
    match view {
        Some(view) => is_numbered(marks_shown(view, kind)),
        None => false,
    }
}

fn shows_at(looked: &Looked, kind: Kind, x: BrickId) -> bool
    requires { x.0 < 5 }
    ensures { result ≡ shows_number kind (views_of looked.now x.0) }
{
    shows(&looked.views[x.0 as usize], kind)
}

fn some_numbered(n: u8, looked: &Looked, kind: Kind) -> bool
    requires { n ≤ 5 }
    ensures { result ≡ any n (λ x. shows_number kind (views_of looked.now x)) }
{
    for x in 0..n {
        if shows_at(looked, kind, BrickId(x)) {
            return true;
        }
    }
    false
}

fn len_shown(view: &Option<View>) -> u32
    ensures { result ≡ len_of view.now }
{
    match view {
        Some(view) => view.len,
        None => 0,
    }
}

/// The length that a brick showed, or 0 where it has no copy.
pub fn len_at(looked: &Looked, x: BrickId) -> u32
    requires { x.0 < 5 }
    ensures { result ≡ len_of (views_of looked.now x.0) }
{
    len_shown(&looked.views[x.0 as usize])
}

fn is_level(register: &Register, s: BrickId, x: BrickId) -> bool
    requires small { s.0 < 5 }
    requires less { x.0 < 5 }
    ensures { result ≡ (not (sink (keeps_in register.now.shape) (seen_as register.now) s.0 x.0) || (len_of (views_of register.now.looked x.0) == len_of (views_of register.now.looked s.0))) }
{
    !is_sink(register, s, x) || len_at(&register.looked, x) == len_at(&register.looked, s)
}

/// Whether each sink has the length of the source.
fn are_level(register: &Register, s: BrickId) -> bool
    requires few { register.now.shape.n ≤ 5 }
    requires small { s.0 < 5 }
    ensures { result ≡ all register.now.shape.n (λ x. not (sink (keeps_in register.now.shape) (seen_as register.now) s.0 x) || (len_of (views_of register.now.looked x) == len_of (views_of register.now.looked s.0))) }
{
    all_of(
        register.shape.n,
        is_level(register, s, BrickId(0)),
        is_level(register, s, BrickId(1)),
        is_level(register, s, BrickId(2)),
        is_level(register, s, BrickId(3)),
        is_level(register, s, BrickId(4)),
    )
}

fn opens_way(register: &Register) -> bool
    requires { register.now.shape.n ≤ 5 }
    ensures { result ≡ is_most register.now.shape.n (seen_as register.now).first_reached && is_most register.now.shape.n (holder (views_of register.now.seen)) && any register.now.shape.n (λ x. shows_number register.now.kind (views_of register.now.seen x)) }
{
    let n = register.shape.n;
    let seen = &register.seen;
    seen.reached.has_quorum(n) && most_hold(n, seen) && some_numbered(n, seen, register.kind)
}

fn is_accepted(register: &Register, s: BrickId) -> bool
    requires few { register.now.shape.n ≤ 5 }
    requires small { s.0 < 5 }
    ensures { result ≡ goes_on_at register.now.shape.n (keeps_in register.now.shape) (seen_as register.now) s.0 (heal_part_of register.now.part) }
{
    let n = register.shape.n;
    match register.part {
        HealPart::Opening => opens_way(register),
        HealPart::Piece => is_unaccused(n, &register.looked, register.kind, s),
        HealPart::Finish => {
            is_unaccused(n, &register.looked, register.kind, s) && are_level(register, s)
        }
    }
}

/// Whether the looks let the heal go on with this source.
pub(crate) fn is_going_on(register: &Register, s: BrickId) -> bool
    requires few { register.now.shape.n ≤ 5 }
    requires small { s.0 < 5 }
    ensures { result ≡ goes_on register.now.shape.n (keeps_in register.now.shape) (seen_as register.now) s.0 }
{
    is_good(register.shape, &register.seen, register.kind, s) && is_accepted(register, s)
}

pub(crate) fn has_looked(register: &Register, s: BrickId) -> bool
    requires { register.now.shape.n ≤ 5 }
    ensures { result ≡ looks_over register.now.shape.n (keeps_in register.now.shape) (seen_as register.now) s.0 }
{
    7 <= rank(register.step) && has_passed(register, s, Step::Looks)
}

pub(crate) fn has_read(register: &Register, s: BrickId) -> bool
    requires { register.now.shape.n ≤ 5 }
    ensures { result ≡ reads_over register.now.shape.n (keeps_in register.now.shape) (seen_as register.now) s.0 }
{
    has_looked(register, s) && has_passed(register, s, Step::Reads)
}

pub(crate) fn has_raised(register: &Register, s: BrickId) -> bool
    requires { register.now.shape.n ≤ 5 }
    ensures { result ≡ pres_over register.now.shape.n (keeps_in register.now.shape) (seen_as register.now) s.0 }
{
    has_read(register, s) && has_passed(register, s, Step::HealPres)
}

pub(crate) fn has_mended(register: &Register, s: BrickId) -> bool
    requires { register.now.shape.n ≤ 5 }
    ensures { result ≡ mends_over register.now.shape.n (keeps_in register.now.shape) (seen_as register.now) s.0 }
{
    has_raised(register, s) && has_passed(register, s, Step::Mends)
}

pub(crate) fn has_settled(register: &Register, s: BrickId) -> bool
    requires { register.now.shape.n ≤ 5 }
    ensures { result ≡ settles_over register.now.shape.n (keeps_in register.now.shape) (seen_as register.now) s.0 }
{
    has_mended(register, s) && has_passed(register, s, Step::Settles)
}

/// A move after the looks, on the heal's object and kind.
pub(crate) fn is_onward(register: &Register, s: BrickId, g: Gfid, kind: Kind) -> bool
    requires few { register.now.shape.n ≤ 5 }
    requires small { s.0 < 5 }
    ensures { result ≡ onward register.now.shape.n (keeps_in register.now.shape) (seen_as register.now) s.0 g.0 kind }
{
    is_going_on(register, s)
        && has_looked(register, s)
        && g.0 == register.object.0
        && is_same_kind(kind, register.kind)
}

pub(crate) fn is_changed(register: &Register, s: BrickId, kind: Kind, c: BrickId) -> bool
    requires { c.0 < 5 }
    ensures { result ≡ changed (seen_as register.now) s.0 kind c.0 }
{
    match kind {
        Kind::Names => holds(&register.seen, c),
        Kind::Bytes => is_other(register, s, c),
        Kind::Attrs => is_other(register, s, c),
    }
}

/// Whether the heal raised the dirty number there.
pub(crate) fn is_raised(register: &Register, s: BrickId, kind: Kind, b: BrickId) -> bool
    requires { b.0 < 5 }
    ensures { result ≡ raised (keeps_in register.now.shape) (seen_as register.now) s.0 kind b.0 }
{
    match kind {
        Kind::Bytes => is_sink(register, s, b),
        Kind::Attrs => is_other(register, s, b),
        Kind::Names => true,
    }
}
