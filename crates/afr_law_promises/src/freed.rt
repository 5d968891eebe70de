//! Between two works an actor holds no lock.

ghost use Rattle.afr_law_promises.specs.Unlocked.Unlocked.{WorksLeaveNoLock};

/// No lock outlives its work, nor a heal's locks that heal: each unlock frees the lock of its own area alone, and neither a
/// work nor a heal ends before its actor's register holds none. A session that ends takes its locks along, so an actor that
/// was killed in its work holds none where it had none left.
pub fn works_leave_no_lock()
    ensures exact { WorksLeaveNoLock }
{}
