//! Locks that are asked for: granted, or held by another.
ghost use Rattle.std.specs.Prelude.{◌≡◌, ◌<◌, OnOk, OnErr};
ghost use Rattle.afr_model.specs.Honest.{lock_answer};
ghost use Rattle.afr_range_locks.specs.Locks.{overlap_range, range_lock};
ghost use Rattle.afr_lines.specs.Locks.{first_conflict};
ghost use Rattle.afr_name_locks.specs.Names.{name_lock, overlap_dir_name};
ghost use Rattle.afr_server.specs.Carried.{joined_by};

use crate::said::{say_granted, say_held};
use afr_base::{ActorId, Gfid, NameId, NoMemory};
use afr_lines::{Answer, Domain};
use afr_name_locks::NameLocks;
use afr_range_locks::{Got, RangeLocks};

pub(crate) fn lock_range(
    ranges: &mut RangeLocks,
    owner: ActorId,
    domain: Domain,
    gfid: Gfid,
    from: u64,
    to: u64,
    answer: &mut Answer,
) -> Result<(), NoMemory>
    requires { from < to }
    ensures answer { OnOk result (answer.new ≡ lock_answer (first_conflict overlap_range (range_lock owner domain gfid from to) ranges.old)) }
    ensures locks { OnOk result (ranges.new ≡ joined_by (first_conflict overlap_range (range_lock owner domain gfid from to) ranges.old) (range_lock owner domain gfid from to) ranges.old) }
    ensures err { OnErr result (ranges.new ≡ ranges.old) }
{
    match ranges.lock(owner, domain, gfid, from, to)? {
        Got::Granted => say_granted(answer),
        Got::Held(holder) => say_held(answer, holder),
    }
    Ok(())
}

pub(crate) fn lock_name(
    names: &mut NameLocks,
    owner: ActorId,
    domain: Domain,
    gfid: Gfid,
    name: Option<NameId>,
    answer: &mut Answer,
) -> Result<(), NoMemory>
    ensures answer { OnOk result (answer.new ≡ lock_answer (first_conflict overlap_dir_name (name_lock owner domain gfid name) names.old)) }
    ensures locks { OnOk result (names.new ≡ joined_by (first_conflict overlap_dir_name (name_lock owner domain gfid name) names.old) (name_lock owner domain gfid name) names.old) }
    ensures err { OnErr result (names.new ≡ names.old) }
{
    match names.lock(owner, domain, gfid, name)? {
        Got::Granted => say_granted(answer),
        Got::Held(other) => say_held(answer, other),
    }
    Ok(())
}
