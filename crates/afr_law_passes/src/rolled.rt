//! The law of rolling maintenance: where some brick is always spared, and a pass comes before another one is, nothing splits.

ghost use Rattle.afr_law_passes.specs.Rolling.Rolling.{ModelNamesMissers, RollingNeverSplits};

use crate::quiet_rounds_converge;
use afr_law::a_gfid_is_of_one_kind;
use afr_law_promises::split_copies_missed;

/// A post-op names no brick that had the object when its work began and told that work no fault. So where some brick that
/// keeps all kinds was reached and refused nothing since all were between works, and a pass of quiet rounds comes before
/// another brick is the one that is spared, nothing that every brick had and that was clear at the beginning ends in
/// split-brain, whatever the other bricks do and whoever dies.
pub fn what_all_have_never_splits()
    ensures names { ModelNamesMissers }
    ensures rolling { RollingNeverSplits }
{
    a_gfid_is_of_one_kind();
    split_copies_missed();
    quiet_rounds_converge();
}
