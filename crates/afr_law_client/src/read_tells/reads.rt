//! A read and the lines of its work: each line is about the command, and the reply is the command's answer.
ghost use Rattle.afr_law_client.specs.Read.Lines.{HonestReads};
ghost use Rattle.afr_law_client.specs.Read.ReadLaws.{ReadAbout, ReadBegins, ReadEnds, ReadFollows, ReadTellsMore};

/// The lines of a read's work show where it stands, whatever the bricks answer: from its first line to its end, each line
/// is about what the command's words name, and the reply has its cause.
pub fn a_lookup_tells_its_lines()
    ensures begins { ReadBegins }
    ensures more { ReadTellsMore }
    ensures about { ReadAbout }
    ensures follows { ReadFollows }
    ensures ends { ReadEnds }
{}

/// What an honest brick tells of a read is what the above asks of its answers, if it has the object.
pub fn an_honest_read_fits()
    ensures { HonestReads }
{}
