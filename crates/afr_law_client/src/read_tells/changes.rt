//! What the words of a write, a cut and a setattr say at the object that their path has led to.
ghost use Rattle.afr_law_client.specs.Read.ChangeLaws.{ChangeKeepsPath, ChangesStand, DirectoryEnds, LargeEnds, NothingEnds};

/// A change whose path has led to its object is refused by its locks and looks alone, and answered by its post-ops; one
/// that is too large, of a directory's bytes or of no bytes is answered without any.
pub fn a_change_stands_at_its_object()
    ensures stands { ChangesStand }
    ensures path { ChangeKeepsPath }
    ensures large { LargeEnds }
    ensures directory { DirectoryEnds }
    ensures nothing { NothingEnds }
{}
