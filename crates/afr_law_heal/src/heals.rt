//! A heal and its lines.
ghost use Rattle.afr_law_heal.specs.HealLaws.{HealBeginsTold, HealEndsWell, HealSettlesSeen, HealTellsBegun, HealTellsMore};

use afr_discipline::each_note_stands;

/// The lines of a heal show where it stands, whatever the bricks answer: from its first line to its end nothing is skipped,
/// each settling takes back what the first looks showed, and the reply has its cause.
pub fn a_heal_tells_its_lines()
    ensures begins { HealBeginsTold }
    ensures more { HealTellsMore }
    ensures begun { HealTellsBegun }
    ensures settles { HealSettlesSeen }
    ensures ends { HealEndsWell }
{
    each_note_stands();
}
