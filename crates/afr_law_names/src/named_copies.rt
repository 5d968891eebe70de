//! No name leads nowhere: a brick that has an entry has its object.

ghost use Rattle.afr_law_names.specs.Named.Named.{EntriesHaveCopies};

/// Whatever the log, honest or not: a name comes into a table with its object, by a command or by a repair of names, and a
/// removal takes the name alone. So no object is ever lost under a name.
pub fn entries_have_copies()
    ensures named { EntriesHaveCopies }
{}
