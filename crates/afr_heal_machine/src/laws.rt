//! What holds of heals, for those who prove over many of their lines.
ghost use Rattle.afr_heal_machine.specs.Laws.{HealAllowed, HealAsksLow, HealBegins, HealBeginsFresh, HealBegunStays, HealEndNamed, HealHasRoom, HealHasSource, HealIsInside, HealKeepsFive, HealStays};

use afr_discipline::each_note_stands;
use afr_heal::{each_heal_has_room, each_heal_is_kept};

/// Whatever its bricks answer, a heal keeps what it keeps, and each of its lines is allowed.
pub fn a_heal_stays_sound()
    ensures allowed { HealAllowed }
    ensures low { HealAsksLow }
    ensures room { HealHasRoom }
    ensures fresh { HealBeginsFresh }
    ensures inside { HealIsInside }
    ensures five { HealKeepsFive }
    ensures begins { HealBegins }
    ensures source { HealHasSource }
    ensures stays { HealStays }
    ensures begun { HealBegunStays }
    ensures named { HealEndNamed }
{
    each_note_stands();
    each_heal_is_kept();
    each_heal_has_room();
}
