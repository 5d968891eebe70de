//! The events that are due, and whom they kill.
ghost use Rattle.std.specs.Prelude.{◌≡◌, ◌<◌, ◌≤◌, None, OnOk, length};
ghost use Rattle.afr_model.specs.Following.{NoneDue};
ghost use Rattle.afr_volume.specs.Going.{IsHappening};
ghost use Rattle.afr_volume.specs.Turning.{due_of};
ghost use Rattle.afr_workers.specs.Crew.{IsCrew, IsPlaced, IsStill, Leads};

use crate::crew::Crew;
use afr_base::NoMemory;
use afr_volume::Volume;

/// All events that are due.
pub(crate) fn come(volume: &mut Volume, crew: &mut Crew) -> Result<(), NoMemory>
    requires { IsPlaced crew.old volume.old }
    ensures placed { IsPlaced crew.new volume.new }
    ensures crew { IsCrew crew.old volume.old → IsCrew crew.new volume.new }
    ensures happens { IsHappening volume.old volume.new }
    ensures round { crew.new.round ≡ crew.old.round }
    ensures at { crew.new.at ≡ crew.old.at }
    ensures leads { Leads volume.old volume.new }
    ensures still { length volume.new.log ≤ length volume.old.log → IsStill volume.old crew.old volume.new crew.new }
    ensures none { OnOk result (due_of volume.new ≡ None) }
    ensures events { OnOk result (length volume.new.log < volume.new.plan.turns → NoneDue volume.new.plan volume.new.log) }
{
    while let Some(event) = volume.due() {
        volume.event()?;
        crew.note(event);
    }
    Ok(())
}
