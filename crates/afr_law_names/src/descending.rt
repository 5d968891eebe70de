//! Names of directories lead down: one has a greater number than each directory in which a name leads to it.

ghost use Rattle.afr_law_names.specs.Descent.Descent.{EntriesLeadDown, PathsLeadDown};

/// In each table of an honest and lawful log of a plan a name of a directory leads from one to one with a greater number
/// (`tables`), since only a mkdir names a directory, and what it makes has the number of its own line; a file can be given
/// a name in a later directory. So with each name of a directory that a client reads on its path it comes to a greater
/// number (`paths`), where its command has one path.
pub fn entries_lead_down()
    ensures tables { EntriesLeadDown }
    ensures paths { PathsLeadDown }
{}
