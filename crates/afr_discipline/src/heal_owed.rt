//! The numbers that a heal takes back at a brick, if one copy is its source.
ghost use Rattle.std.specs.Prelude.{◌≡◌, ◌<◌, ◌≤◌};
ghost use Rattle.afr_model_moves.specs.Keeps.{keeps_in};
ghost use Rattle.afr_discipline.specs.Stands.{seen_as, views_of};
ghost use Rattle.afr_discipline.specs.Turns.{dirty_less, less_in, marks_in, pending_less};

use crate::heals::{is_changed, is_raised};
use crate::register::Register;
use crate::views::all_hold;
use afr_base::{BrickId, Kind, Marks};
use afr_object::View;

fn pending_owed(register: &Register, s: BrickId, kind: Kind, shown: &Marks, c: BrickId) -> u32
    requires { c.0 < 5 }
    ensures { result ≡ pending_less register.now.shape.n (seen_as register.now) s.0 kind shown.now c.0 }
{
    if c.0 < register.shape.n && is_changed(register, s, kind, c) {
        shown.pending[c.0 as usize]
    } else {
        0
    }
}

fn dirty_owed(register: &Register, s: BrickId, b: BrickId, kind: Kind, shown: &Marks) -> u32
    requires few { register.now.shape.n ≤ 5 }
    requires small { b.0 < 5 }
    requires room { shown.now.dirty < 4294967295 }
    ensures { result ≡ dirty_less register.now.shape.n (keeps_in register.now.shape) (seen_as register.now) s.0 b.0 kind shown.now }
{
    if all_hold(register.shape.n, &register.seen) {
        if is_raised(register, s, kind, b) {
            shown.dirty + 1
        } else {
            shown.dirty
        }
    } else {
        0
    }
}

fn shown_at(kind: Kind, view: &Option<View>) -> Marks
    ensures { result ≡ marks_in kind view.now }
{
    match view {
        Some(view) => view.marks.of(kind),
        None => Marks {
            dirty: 0,
            pending: [0; 5],
        },
    }
}

/// The numbers that a heal takes back at a brick: the argument of its Settle. The caller shows that the dirty number
/// that the brick showed leaves room for the heal's own.
pub fn owed_at(register: &Register, s: BrickId, kind: Kind, b: BrickId) -> Marks
    requires few { register.now.shape.n ≤ 5 }
    requires small { b.0 < 5 }
    requires room { (marks_in kind (views_of register.now.seen b.0)).dirty < 4294967295 }
    ensures { result ≡ less_in register.now.shape.n (keeps_in register.now.shape) (seen_as register.now) s.0 kind b.0 }
{
    let shown = shown_at(kind, &register.seen.views[b.0 as usize]);
    Marks {
        dirty: dirty_owed(register, s, b, kind, &shown),
        pending: [
            pending_owed(register, s, kind, &shown, BrickId(0)),
            pending_owed(register, s, kind, &shown, BrickId(1)),
            pending_owed(register, s, kind, &shown, BrickId(2)),
            pending_owed(register, s, kind, &shown, BrickId(3)),
            pending_owed(register, s, kind, &shown, BrickId(4)),
        ],
    }
}
