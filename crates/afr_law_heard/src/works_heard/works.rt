//! A client's present work and its lines: each line is about the command, and the reply is the command's answer.
ghost use Rattle.afr_law_heard.specs.Works.WorkLaws.{BlamedLines, WorkAbout, WorkBegins, WorkBegun, WorkBlames, WorkEnds, WorkKeepsName, WorkTellsMore};

use afr_law_client::a_rename_tells_its_lines;

/// The lines of a work show where it stands, whatever the bricks answer: from its first line to its end, each line is about
/// what the command's words name, each post-op accuses with cause, and the reply has its cause.
pub fn a_work_tells_its_lines()
    ensures begins { WorkBegins }
    ensures more { WorkTellsMore }
    ensures begun { WorkBegun }
    ensures about { WorkAbout }
    ensures blames { WorkBlames }
    ensures blamed { BlamedLines }
    ensures ends { WorkEnds }
    ensures names { WorkKeepsName }
{
    a_rename_tells_its_lines();
}
