//! Which sets carry a change, by what the views of its object say, and for which objects it is.
ghost use Rattle.std.specs.Prelude.{◌≡◌, ◌<◌, ◌≤◌, ◌&&◌, ◌==◌, not, false};
ghost use Rattle.afr_model_moves.specs.Sets.{any};
ghost use Rattle.afr_base.specs.Bricks.{member};
ghost use Rattle.afr_base.specs.Majority.{is_most};
ghost use Rattle.afr_model_moves.specs.Rules.{fits_change};
ghost use Rattle.afr_model_moves.specs.Cells.{what_code};
ghost use Rattle.afr_model_moves.specs.Register.{all, good, holder};
ghost use Rattle.afr_model_moves.specs.Keeps.{keeps_in};
ghost use Rattle.afr_discipline.specs.Stands.{views_of};
ghost use Rattle.afr_discipline.specs.Tests.{fits_view, suffices_by};

use crate::of_five::all_of;
use afr_base::{BrickId, BrickSet, Kind, Shape, What};
use afr_choice::{Looked, is_good, shown};
use afr_object::{Change, View};

/// Whether the set is a majority in which a copy is good.
pub fn suffices(shape: Shape, looked: &Looked, kind: Kind, set: BrickSet) -> bool
    requires { shape.n ≤ 5 }
    ensures { result ≡ suffices_by shape.n (keeps_in shape) kind (views_of looked.now) (member set) }
{
    set.has_quorum(shape.n) && some_good(shape, looked, kind, set)
}

fn is_good_in(shape: Shape, looked: &Looked, kind: Kind, set: BrickSet, s: BrickId) -> bool
    requires few { shape.n ≤ 5 }
    requires small { s.0 < 5 }
    ensures { result ≡ member set s.0 && good shape.n (keeps_in shape) kind (views_of looked.now) s.0 }
{
    set.has(s) && is_good(shape, looked, kind, s)
}

/// Whether a copy of the set is good. The views are asked of no copy past the first that is.
fn some_good(shape: Shape, looked: &Looked, kind: Kind, set: BrickSet) -> bool
    requires { shape.n ≤ 5 }
    ensures { result ≡ any shape.n (λ s. member set s && good shape.n (keeps_in shape) kind (views_of looked.now) s) }
{
    for s in 0..shape.n {
        if is_good_in(shape, looked, kind, set, BrickId(s)) {
            return true;
        }
    }
    false
}

/// Whether the bricks with a copy are a majority in which a copy is good.
pub(crate) fn holders_suffice(shape: Shape, looked: &Looked, kind: Kind) -> bool
    requires { shape.n ≤ 5 }
    ensures { result ≡ suffices_by shape.n (keeps_in shape) kind (views_of looked.now) (holder (views_of looked.now)) }
{
    suffices(shape, looked, kind, shown(looked))
}

/// Whether the bricks with a copy are a majority.
pub(crate) fn most_hold(n: u8, looked: &Looked) -> bool
    requires { n ≤ 5 }
    ensures { result ≡ is_most n (holder (views_of looked.now)) }
{
    shown(looked).has_quorum(n)
}

/// Whether each brick of the volume has a copy.
pub(crate) fn all_hold(n: u8, looked: &Looked) -> bool
    requires { n ≤ 5 }
    ensures { result ≡ all n (holder (views_of looked.now)) }
{
    has_all(n, shown(looked))
}

/// Whether the change is for such an object.
fn fits(view: &Option<View>, change: &Change) -> bool
    ensures { result ≡ fits_view view.now change.now }
{
    match view {
        Some(view) => fits_what(view.what, change),
        None => true,
    }
}

fn fits_what(what: What, change: &Change) -> bool
    ensures { result ≡ fits_change (what_code what) change.now }
{
    match change {
        Change::Write { .. } | Change::Cut { .. } => is_file(what),
        Change::SetAttr { .. } => true,
        Change::Make { .. } | Change::Remove { .. } => !is_file(what),
    }
}

fn is_file(what: What) -> bool
    ensures file { result ≡ (what_code what == 1) }
    ensures dir { not result ≡ (what_code what == 2) }
    ensures some { (what_code what == 0) ≡ false }
{
    match what {
        What::File => true,
        What::Dir => false,
    }
}

fn fits_at(looked: &Looked, x: BrickId, change: &Change) -> bool
    requires { x.0 < 5 }
    ensures { result ≡ fits_view (views_of looked.now x.0) change.now }
{
    fits(&looked.views[x.0 as usize], change)
}

/// Whether the change is for such an object as each view shows.
pub(crate) fn fits_all(n: u8, looked: &Looked, change: &Change) -> bool
    requires { n ≤ 5 }
    ensures { result ≡ all n (λ x. fits_view (views_of looked.now x) change.now) }
{
    all_of(
        n,
        fits_at(looked, BrickId(0), change),
        fits_at(looked, BrickId(1), change),
        fits_at(looked, BrickId(2), change),
        fits_at(looked, BrickId(3), change),
        fits_at(looked, BrickId(4), change),
    )
}

/// Whether the set has a brick of the volume.
pub(crate) fn has_some(n: u8, set: BrickSet) -> bool
    requires { n ≤ 5 }
    ensures { result ≡ any n (member set) }
{
    let few = set.common(BrickSet::all(n));
    !few.is_empty()
}

/// Whether the set has each brick of the volume.
fn has_all(n: u8, set: BrickSet) -> bool
    requires { n ≤ 5 }
    ensures { result ≡ all n (member set) }
{
    BrickSet::all(n).minus(set).is_empty()
}
