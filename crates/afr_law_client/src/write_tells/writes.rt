//! A change and the lines of its work: each line is about the command, and the reply is the command's answer.
ghost use Rattle.afr_law_client.specs.Write.WriteLaws.{WriteAbout, WriteBegins, WriteBegun, WriteBlames, WriteEnds, WriteTellsMore};

/// The lines of a change's work show where it stands, whatever the bricks answer: from its first line to its end, each line
/// is about what the command's words name, each post-op accuses with cause, and the reply has its cause.
pub fn a_write_tells_its_lines()
    ensures begins { WriteBegins }
    ensures more { WriteTellsMore }
    ensures begun { WriteBegun }
    ensures about { WriteAbout }
    ensures blames { WriteBlames }
    ensures ends { WriteEnds }
{}
