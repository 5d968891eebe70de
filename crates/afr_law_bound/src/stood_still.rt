//! Not everybody who has something left to do waits for a lock.

ghost use Rattle.afr_law_bound.specs.Standstill.Law.{HeldWaits, NotAllWait, WaitsOn};

/// A log never stands still: who is told that another holds its lock waits (`held`), and waits on while the lines of
/// others tell of nothing done (`on`); but where each actor that has something left to do waits, no actor has (`some`).
pub fn a_log_goes_on()
    ensures held { HeldWaits }
    ensures on { WaitsOn }
    ensures some { NotAllWait }
{}
