//! The name that a rename makes leads to an object that is known: its work has read an entry of it.

ghost use Rattle.afr_law_names.specs.Links.Links.{FoundIsKnown};

/// After an honest log that keeps the discipline, what the path of an actor's present work has led to is known in the words of
/// the discipline: a Begin line that the register allows, and that makes a name for it, may come next.
pub fn a_found_file_may_be_linked()
    ensures { FoundIsKnown }
{}
