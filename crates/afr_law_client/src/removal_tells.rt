//! The removal of a directory and the lines of its work: each line is about the command, and the reply is the command's answer.

ghost use Rattle.afr_law_client.specs.Removal.RemovalLaws.{RemovalAbout, RemovalBegins, RemovalBegun, RemovalBlames, RemovalEnds, RemovalTellsMore};

/// The lines of an rmdir that found a directory show where its removal stands, whatever the bricks answer, from the read of
/// its name to the end of the work.
pub fn a_removal_tells_its_lines()
    ensures begins { RemovalBegins }
    ensures more { RemovalTellsMore }
    ensures begun { RemovalBegun }
    ensures about { RemovalAbout }
    ensures blames { RemovalBlames }
    ensures ends { RemovalEnds }
{}
