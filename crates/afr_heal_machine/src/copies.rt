//! Whether the looks of a heal show any number.
ghost use Rattle.std.specs.Prelude.{◌≡◌, ◌<◌};
ghost use Rattle.afr_model.specs.HealReplies.{is_clean};
ghost use Rattle.afr_heal_machine.specs.Outcome.{is_marked};

use afr_base::{BrickId, Kind};
use afr_choice::Looked;

/// Whether all numbers of the kind are 0 at the bricks that have the object.
pub(crate) fn is_clean(kind: Kind, looked: &Looked) -> bool
    ensures { result ≡ is_clean kind looked.now }
{
    for brick in 0..5u8 {
        if shows_number(kind, looked, BrickId(brick)) {
            return false;
        }
    }
    true
}

fn shows_number(kind: Kind, looked: &Looked, brick: BrickId) -> bool
    requires { brick.0 < 5 }
    ensures { result ≡ is_marked kind looked.now brick.0 }
{
    if !looked.reached.has(brick) {
        return false;
    }
    match looked.views[brick.0 as usize] {
        Some(view) => !view.marks.of(kind).is_zero(),
        None => false,
    }
}
