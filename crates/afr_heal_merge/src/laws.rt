//! What a merge of names is, whatever is merged.
ghost use Rattle.afr_heal_merge.specs.Merging.{MergeIsInOrder, GreatestStands, NothingIsAdded};

/// The merge of any lists is in the order of its names, each once. A name that one of the lists has leads in the merge to an
/// entry with no lower gfid, and each entry of the merge stands for its name in one of the lists.
pub fn a_merge_keeps_the_greatest()
    ensures order { MergeIsInOrder }
    ensures greatest { GreatestStands }
    ensures added { NothingIsAdded }
{}
