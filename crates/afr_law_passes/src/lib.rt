//! What rounds at all bricks leave, and how far down from the root so many passes reach.
#![tactic(auto)]

mod reaching;
mod rolled;

ghost use Rattle.afr_law_passes.specs.Converged.{QuietRoundsConverge, QuietRoundsLeave};

use afr_law_quiet::quiet_rounds_are_whole;
pub use reaching::quiet_passes_reach;
pub use rolled::what_all_have_never_splits;

/// A round that nothing disturbed leaves clear what was clear; and of each object that every brick has, a split-brain as it
/// was. So after such rounds at all bricks, one right after the other, each object that every brick had when they began is
/// clear and alike on all bricks, kind by kind; or it was in split-brain then, and nothing of it has changed.
pub fn quiet_rounds_converge()
    ensures leave { QuietRoundsLeave }
    ensures converge { QuietRoundsConverge }
{
    quiet_rounds_are_whole();
}
