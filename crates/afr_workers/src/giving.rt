//! A worker is given the next item.
ghost use Rattle.std.specs.Prelude.{◌≡◌, ◌⊎◌, ◌+◌, ◌-◌, ◌<◌, ◌^◌, None, OnOk, Some, false, slice_get};
ghost use Rattle.afr_model.specs.Crawl.{IsWorker, lists_by};
ghost use Rattle.afr_lines.specs.Work.{is_killed};
ghost use Rattle.afr_volume.specs.Tasks.{is_done_in};
ghost use Rattle.afr_workers.specs.Crew.{IsCrew, IsStill, TakesNone};
ghost use Rattle.afr_workers.specs.Cursor.{ComesNext};

use crate::crew::Crew;
use crate::next::{Next, next_item};
use afr_base::{ActorId, NoMemory};
use afr_volume::Volume;

/// A worker that lives and is at no task has the next item as its task, if there is one.
pub(crate) fn give(volume: &mut Volume, a: ActorId, crew: &mut Crew) -> Result<(), NoMemory>
    requires worker { IsWorker a.0 }
    requires crew { IsCrew crew.old volume.old }
    ensures crew { IsCrew crew.new volume.new }
    ensures plan { volume.new.plan ≡ volume.old.plan }
    ensures log { volume.new.log ≡ volume.old.log }
    ensures ok { OnOk result ((is_done_in a.0 volume.new ≡ false) ⊎ (IsStill volume.old crew.old volume.new crew.new × TakesNone a.0 volume.old crew.old)) }
{
    if crew.is_dead(a) {
        return Ok(());
    }
    if !volume.is_done(a) {
        return Ok(());
    }
    match next_item(volume, crew.round, crew.at) {
        Some(next) => give_item(volume, a, crew, next),
        None => Ok(()),
    }
}

/// A worker that lives and is at no task has this item as its task.
fn give_item(volume: &mut Volume, a: ActorId, crew: &mut Crew, next: Next) -> Result<(), NoMemory>
    requires worker { IsWorker a.0 }
    requires crew { IsCrew crew.old volume.old }
    requires alive { is_killed a.0 volume.old.log ≡ false }
    requires idle { slice_get volume.old.tasks (a.0 - 18) ≡ Some None }
    requires next { ComesNext (lists_by volume.old.plan volume.old.log) crew.old.round crew.old.at next.round next.at (next.gfid, next.what) }
    requires room { next.at + 1 < 2 ^ 64 }
    ensures crew { IsCrew crew.new volume.new }
    ensures plan { volume.new.plan ≡ volume.old.plan }
    ensures log { volume.new.log ≡ volume.old.log }
    ensures ok { OnOk result (is_done_in a.0 volume.new ≡ false) }
{
    volume.assign(a, next.gfid, next.what)?;
    crew.give(next);
    Ok(())
}
