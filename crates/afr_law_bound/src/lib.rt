//! How long a log can be: nobody waits in a circle, and each run ends within its bound.
#![tactic(auto)]

mod ended_within;
mod stood_still;

ghost use Rattle.afr_law_bound.specs.Law.{GoesOnWaiting, HealsRise, NobodyWaits, ToldWaits};

pub use ended_within::an_ordered_run_ends;
pub use stood_still::a_log_goes_on;

/// Work locks are asked in rising order of objects and bricks. So an actor at the highest place at which anybody waits
/// would wait for one that waits at a higher one. `rises`: a heal keeps this order by the discipline alone. `told`: who is
/// told that another holds its lock waits for an actor that has a session. `on`: it waits on while the others are told of
/// nothing done. `nobody`: not every actor of a set waits for another of the set.
pub fn nobody_waits_in_a_circle()
    ensures rises { HealsRise }
    ensures told { ToldWaits }
    ensures on { GoesOnWaiting }
    ensures nobody { NobodyWaits }
{}
