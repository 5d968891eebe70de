//! What the views of a look say of its copies, whoever was reached: the sets that the rules of the protocol speak of.
ghost use Rattle.std.specs.Prelude.{◌≡◌, ◌<◌, ◌≤◌};
ghost use Rattle.afr_model_moves.specs.Keeps.{keeps_in};
ghost use Rattle.afr_model_moves.specs.Register.{accuses, good, holder, unaccused};
ghost use Rattle.afr_choice.specs.Looks.{views_of};
ghost use Rattle.afr_choice.specs.Shown.{good_shown, shown_of};

use crate::looked::Looked;
use crate::verdict::shows_missed;
use afr_base::{BrickId, BrickSet, Kind, MOST_BRICKS, Shape};
use afr_object::View;

/// Whether the brick showed a copy.
pub fn holds(looked: &Looked, b: BrickId) -> bool
    requires { b.0 < 5 }
    ensures { result ≡ holder (views_of looked.now) b.0 }
{
    looked.views[b.0 as usize].is_some()
}

/// Whether it is one of the five bricks, and keeps what this kind is about.
pub fn keeps(shape: Shape, b: BrickId, kind: Kind) -> bool
    ensures { result ≡ keeps_in shape b.0 kind }
{
    b.0 < MOST_BRICKS && shape.keeps(kind, b)
}

fn accuses(view: &Option<View>, kind: Kind, s: BrickId) -> bool
    requires { s.0 < 5 }
    ensures { result ≡ accuses kind view.now s.0 }
{
    shows_missed(view, kind, s)
}

fn accuses_at(looked: &Looked, kind: Kind, x: BrickId, s: BrickId) -> bool
    requires by { x.0 < 5 }
    requires whom { s.0 < 5 }
    ensures { result ≡ accuses kind (views_of looked.now x.0) s.0 }
{
    accuses(&looked.views[x.0 as usize], kind, s)
}

/// Whether no view of the bricks below `n` accuses the copy.
pub fn is_unaccused(n: u8, looked: &Looked, kind: Kind, s: BrickId) -> bool
    requires few { n ≤ 5 }
    requires small { s.0 < 5 }
    ensures { result ≡ unaccused n kind (views_of looked.now) s.0 }
{
    for x in 0..n {
        if accuses_at(looked, kind, BrickId(x), s) {
            return false;
        }
    }
    true
}

/// Whether the copy is good: the brick showed one that it keeps, and no view accuses it.
pub fn is_good(shape: Shape, looked: &Looked, kind: Kind, s: BrickId) -> bool
    requires few { shape.n ≤ 5 }
    requires small { s.0 < 5 }
    ensures { result ≡ good shape.n (keeps_in shape) kind (views_of looked.now) s.0 }
{
    holds(looked, s) && keeps(shape, s, kind) && is_unaccused(shape.n, looked, kind, s)
}

/// The bricks that showed a copy.
pub fn shown(looked: &Looked) -> BrickSet
    ensures { result ≡ shown_of looked.now }
{
    let mut set = BrickSet::none();
    for b in 0..5u8 {
        set = set.with_if(holds(looked, BrickId(b)), BrickId(b));
    }
    set
}

/// The good copies by the views.
pub fn good_shown(shape: Shape, looked: &Looked, kind: Kind) -> BrickSet
    requires { shape.n ≤ 5 }
    ensures { result ≡ good_shown shape looked.now kind }
{
    let mut set = BrickSet::none();
    for b in 0..5u8 {
        set = set.with_if(is_good(shape, looked, kind, BrickId(b)), BrickId(b));
    }
    set
}
