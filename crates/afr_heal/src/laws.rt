//! What holds of heals, for all of them at once: laws for those who prove over many lines.
ghost use Rattle.afr_heal.specs.Laws.{HealNextAllowed, HealStands};
ghost use Rattle.afr_heal.specs.Moves.{HealsAllowed, HealsBegun, HealsKept, HealsMove, HealsNew, StandingCarried, StaysNamed};
ghost use Rattle.afr_heal.specs.Spare.{StaysSpare};
ghost use Rattle.afr_heal.specs.Verdicts.{LaterIsSource, OpeningIsVerdict};

use afr_discipline::each_note_stands;

/// The next line of a heal of any kind is allowed, and whatever its bricks answer, it keeps standing.
pub fn each_heal_stands()
    ensures allowed { HealNextAllowed }
    ensures stands { HealStands }
{}

/// The same over the program's register, and that the heal's kind is that of its area.
pub fn each_heal_is_kept()
    ensures carried { StandingCarried }
    ensures named { StaysNamed }
    ensures new { HealsNew }
    ensures allowed { HealsAllowed }
    ensures moves { HealsMove }
    ensures kept { HealsKept }
    ensures begun { HealsBegun }
{
    each_note_stands();
}

/// The looks end a heal exactly where the verdict does, and later exactly where its source is accused or the lengths of
/// its sinks differ.
pub fn each_look_is_judged()
    ensures opening { OpeningIsVerdict }
    ensures later { LaterIsSource }
{}

/// The bytes of a heal stay below the length of its source and one piece more.
pub fn each_heal_has_room()
    ensures { StaysSpare }
{}
