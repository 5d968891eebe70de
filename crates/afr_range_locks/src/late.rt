//! The locks that were granted last, in the order of their grants.
ghost use Rattle.std.specs.Prelude.{◌≡◌, ◌++◌};
ghost use Rattle.afr_lines.specs.Locks.{AreApart, first_conflict, unlocked, without_owner};

use crate::got::Got;
use crate::held::HeldLocks;
use crate::lockable::Lockable;
use crate::table::{conflicts, is_lock};
use afr_base::{ActorId, NoMemory};
use afr_lines::HeldLock;

/// So many locks stand in the row: to walk over them costs less than a search.
const MOST_LATE: usize = 16;

/// The owner of the first lock that is in the way.
pub(crate) fn blocked_late<A: Lockable>(
    late: &[HeldLock<A>],
    wanted: &HeldLock<A>,
) -> Option<ActorId>
    ensures { result ≡ first_conflict A.overlap wanted.now late.now }
{
    for lock in late {
        if conflicts(wanted, lock) {
            return Some(lock.owner);
        }
    }
    None
}

/// Takes each equal lock out.
pub(crate) fn release_late<A: Lockable>(late: &mut Vec<HeldLock<A>>, held: &HeldLock<A>)
    ensures { late.new.items ≡ unlocked A.same held.now late.old.items }
{
    late.retain(|lock| !is_lock(held, lock));
}

/// Takes each lock of an owner out.
pub(crate) fn drop_late<A: Lockable>(late: &mut Vec<HeldLock<A>>, owner: ActorId)
    ensures { late.new.items ≡ without_owner owner late.old.items }
{
    late.retain(|lock| lock.owner.0 != owner.0);
}

/// A place in the row: where it is full, the first of it goes into the map.
pub(crate) fn make_place<A: Lockable>(
    filed: &mut HeldLocks<A>,
    late: &mut Vec<HeldLock<A>>,
) -> Result<(), NoMemory>
    requires { AreApart A.overlap (filed.old ++ late.old.items) }
    ensures { filed.new ++ late.new.items ≡ filed.old ++ late.old.items }
{
    if late.len() >= MOST_LATE {
        return file_first(filed, late);
    }
    Ok(())
}

/// The first of the row goes into the map.
#[inline(never)]
fn file_first<A: Lockable>(
    filed: &mut HeldLocks<A>,
    late: &mut Vec<HeldLock<A>>,
) -> Result<(), NoMemory>
    requires { AreApart A.overlap (filed.old ++ late.old.items) }
    ensures { filed.new ++ late.new.items ≡ filed.old ++ late.old.items }
{
    let Some(first) = late.first() else {
        return Ok(());
    };
    match filed.lock(*first)? {
        Got::Granted => {
            late.remove(0);
            Ok(())
        }
        Got::Held(_) => unreachable!(),
    }
}
