//! A command on a name and the lines of its work: each line is about the command, and the reply is the command's answer.
ghost use Rattle.afr_law_client.specs.Entry.EntryLaws.{EntryAbout, EntryBegins, EntryBegun, EntryBlames, EntryEnds, EntryTellsMore};

/// The lines of such a command's work show where it stands, whatever the bricks answer: from its first line to its end, each
/// line is about what the command's words name, each post-op accuses with cause, and the reply has its cause.
pub fn an_entry_tells_its_lines()
    ensures begins { EntryBegins }
    ensures more { EntryTellsMore }
    ensures begun { EntryBegun }
    ensures about { EntryAbout }
    ensures blames { EntryBlames }
    ensures ends { EntryEnds }
{}
