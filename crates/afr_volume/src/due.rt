//! The events that are due.
ghost use Rattle.std.specs.Prelude.{◌≡◌, ◌<◌, [], None, OnOk, length};
ghost use Rattle.afr_model.specs.Following.{NoneDue};
ghost use Rattle.afr_volume.specs.Going.{Goes, IsHappening, Takes};
ghost use Rattle.afr_volume.specs.Turning.{due_of};

use crate::volume::Volume;
use afr_base::NoMemory;

/// All events that are due. Where none is left, that is one comparison.
#[inline]
pub fn come_due(volume: &mut Volume) -> Result<(), NoMemory>
    ensures goes { Goes volume.old volume.new }
    ensures taken { Takes volume.old.plan [] volume.old.log volume.new.log }
    ensures none { OnOk result (due_of volume.new ≡ None) }
    ensures events { OnOk result (length volume.new.log < volume.new.plan.turns → NoneDue volume.new.plan volume.new.log) }
    ensures happens { IsHappening volume.old volume.new }
{
    if volume.has_due() {
        return all_come(volume);
    }
    Ok(())
}

/// One event after another, until none is due. It stands apart, so that a turn before which none is due pays for no call.
#[inline(never)]
fn all_come(volume: &mut Volume) -> Result<(), NoMemory>
    ensures goes { Goes volume.old volume.new }
    ensures taken { Takes volume.old.plan [] volume.old.log volume.new.log }
    ensures none { OnOk result (due_of volume.new ≡ None) }
    ensures events { OnOk result (length volume.new.log < volume.new.plan.turns → NoneDue volume.new.plan volume.new.log) }
    ensures happens { IsHappening volume.old volume.new }
{
    while volume.has_due() {
        volume.event()?;
    }
    Ok(())
}
