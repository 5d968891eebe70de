//! The numbers that a heal takes back, if one copy is its source.
ghost use Rattle.std.specs.Prelude.{◌≡◌, ◌<◌, ◌≤◌, ◌+◌, ◌==◌, ◌&&◌, nat_lt, slice_index, if◌then◌else◌, Some};
ghost use Rattle.afr_model_moves.specs.Honest.{view_marks};
ghost use Rattle.afr_model_moves.specs.Register.{all, holder};
ghost use Rattle.afr_model_moves.specs.Steps.{changed, may_heal, raised, takes};
ghost use Rattle.afr_model_moves.specs.Keeps.{keeps_in};
ghost use Rattle.afr_discipline.specs.Stands.{seen_as, views_of};

use crate::heal_sets::is_turn;
use crate::heals::{has_mended, is_changed, is_onward, is_raised};
use crate::of_five::all_of;
use crate::register::{Register, Step};
use crate::views::all_hold;
use afr_base::{BrickId, Gfid, Kind, Marks};
use afr_lines::Request;
use afr_object::View;

/// Whether what is taken back of one brick is what the heal owes it.
fn is_taken(
    register: &Register,
    s: BrickId,
    kind: Kind,
    less: &Marks,
    view: &View,
    c: BrickId,
) -> bool
    requires { c.0 < 5 }
    ensures { result ≡ (slice_index less.now.pending c.0 == (if nat_lt c.0 register.now.shape.n && changed (seen_as register.now) s.0 kind c.0 then slice_index (view_marks view.now kind).pending c.0 else 0)) }
{
    let shown = view.marks.of(kind);
    if c.0 < register.shape.n && is_changed(register, s, kind, c) {
        less.pending[c.0 as usize] == shown.pending[c.0 as usize]
    } else {
        less.pending[c.0 as usize] == 0
    }
}

fn are_taken(register: &Register, s: BrickId, kind: Kind, less: &Marks, view: &View) -> bool
    ensures { result ≡ all 5 (λ c. slice_index less.now.pending c == (if nat_lt c register.now.shape.n && changed (seen_as register.now) s.0 kind c then slice_index (view_marks view.now kind).pending c else 0)) }
{
    all_of(
        5,
        is_taken(register, s, kind, less, view, BrickId(0)),
        is_taken(register, s, kind, less, view, BrickId(1)),
        is_taken(register, s, kind, less, view, BrickId(2)),
        is_taken(register, s, kind, less, view, BrickId(3)),
        is_taken(register, s, kind, less, view, BrickId(4)),
    )
}

fn one_more(raised: bool) -> u64
    ensures { result ≡ (if raised then 1 else 0) }
{
    if raised { 1 } else { 0 }
}

/// Whether the dirty number that is taken back is what the heal owes the brick.
fn is_cleaned(
    register: &Register,
    s: BrickId,
    b: BrickId,
    kind: Kind,
    less: &Marks,
    view: &View,
) -> bool
    requires few { register.now.shape.n ≤ 5 }
    requires small { b.0 < 5 }
    ensures { result ≡ (less.now.dirty == (if all register.now.shape.n (holder (views_of register.now.seen)) then (view_marks view.now kind).dirty + (if raised (keeps_in register.now.shape) (seen_as register.now) s.0 kind b.0 then 1 else 0) else 0)) }
{
    let shown = view.marks.of(kind);
    if all_hold(register.shape.n, &register.seen) {
        let more = one_more(is_raised(register, s, kind, b));
        u64::from(less.dirty) == u64::from(shown.dirty) + more
    } else {
        less.dirty == 0
    }
}

fn are_numbers(
    register: &Register,
    s: BrickId,
    b: BrickId,
    kind: Kind,
    less: &Marks,
    view: &View,
) -> bool
    requires few { register.now.shape.n ≤ 5 }
    requires small { b.0 < 5 }
    ensures { result ≡ takes register.now.shape.n (keeps_in register.now.shape) (seen_as register.now) s.0 b.0 kind less.now (Some view.now) }
{
    are_taken(register, s, kind, less, view) && is_cleaned(register, s, b, kind, less, view)
}

/// Whether these are the numbers that the heal takes back at the brick.
fn is_owed(
    register: &Register,
    s: BrickId,
    b: BrickId,
    kind: Kind,
    less: &Marks,
    view: &Option<View>,
) -> bool
    requires few { register.now.shape.n ≤ 5 }
    requires small { b.0 < 5 }
    ensures { result ≡ takes register.now.shape.n (keeps_in register.now.shape) (seen_as register.now) s.0 b.0 kind less.now view.now }
{
    match view {
        Some(view) => are_numbers(register, s, b, kind, less, view),
        None => false,
    }
}

fn are_owed(register: &Register, s: BrickId, b: BrickId, kind: Kind, less: &Marks) -> bool
    requires few { register.now.shape.n ≤ 5 }
    requires small { b.0 < 5 }
    ensures { result ≡ takes register.now.shape.n (keeps_in register.now.shape) (seen_as register.now) s.0 b.0 kind less.now (views_of register.now.seen b.0) }
{
    is_owed(
        register,
        s,
        b,
        kind,
        less,
        &register.seen.views[b.0 as usize],
    )
}

/// A heal's next settling.
pub(crate) fn may_settle(
    register: &Register,
    s: BrickId,
    b: BrickId,
    g: Gfid,
    kind: Kind,
    less: &Marks,
) -> bool
    requires few { register.now.shape.n ≤ 5 }
    requires source { s.0 < 5 }
    requires small { b.0 < 5 }
    ensures { result ≡ may_heal register.now.shape.n (keeps_in register.now.shape) (seen_as register.now) s.0 b.0 (Request.Settle g kind less.now) }
{
    is_onward(register, s, g, kind)
        && has_mended(register, s)
        && is_turn(register, s, Step::Settles, b)
        && are_owed(register, s, b, kind, less)
}
