//! A run in the stated order ends within a bound that its plan tells.

ghost use Rattle.afr_law_bound.specs.Ends.Law.{EagerEndsWithin, EndsDone, EndsWithin};

/// In each pass over the actors, a line counts, or an actor is killed that had something left to do: for else all of them
/// would wait. So there are no more passes than lines that count (`within`), and a run that may have as many lines does all
/// that its plan says (`done`). In whatever order the lines come, there are few as long as nobody asks in vain twice running
/// (`eager`).
pub fn an_ordered_run_ends()
    ensures within { EndsWithin }
    ensures done { EndsDone }
    ensures eager { EagerEndsWithin }
{}
