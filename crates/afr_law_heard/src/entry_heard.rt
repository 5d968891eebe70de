//! What a client hears of a command on a name, where answers are honest, moves are lawful, and the log is its plan's.

ghost use Rattle.afr_law_heard.specs.Entry.EntryHears.{EntryBrings, EntryHears, EntryMakesNew};

/// A client hears what its machine of a command on a name asks of the bricks' answers. What goes with its requests is what
/// the log gives them, and what its Begin line makes is new.
pub fn a_client_hears_of_its_names()
    ensures hears { EntryHears }
    ensures loads { EntryBrings }
    ensures begins { EntryMakesNew }
{}
