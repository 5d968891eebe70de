//! The law of reach: what passes of quiet rounds leave of what names lead to from the root.

ghost use Rattle.afr_law_passes.specs.Reached.Reached.{QuietPassesReach};

use crate::quiet_rounds_converge;
use afr_law::a_gfid_is_of_one_kind;
use afr_law_names::{entries_have_copies, no_file_holds_its_own_name};

/// A pass of rounds is undisturbed rounds at all bricks, one right after the other. After one pass the root has converged, and what it
/// names is on every brick; after one more, so have the objects that it names; and so on. So after as many passes as the tree
/// is deep, and one more, all that can be reached through directories that aren't in split-brain is on all bricks, clear and
/// alike, or in split-brain and as it was.
pub fn quiet_passes_reach()
    ensures reach { QuietPassesReach }
{
    a_gfid_is_of_one_kind();
    no_file_holds_its_own_name();
    entries_have_copies();
    quiet_rounds_converge();
}
