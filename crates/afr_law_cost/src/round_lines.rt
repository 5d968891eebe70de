//! How many lines a healer's round has left, and that each line that counts takes one away.

ghost use Rattle.afr_law_cost.specs.Round.Laws.{HealAsksNearer, HealAsksRooted, HealBeginsNearer, HealCosts, HealEndLeft, HealedNearer, IndexNearer, RoundAsksNearer, RoundBeginsNearer, RoundCosts, RoundEndLeft, RoundFollows, RoundHealedNearer};

use crate::{a_heal_comes_nearer, a_heal_keeps_its_area};
use afr_discipline::each_note_stands;
use afr_heal_machine::a_heal_stays_sound;

/// Whatever the bricks answer, each line of a heal's machine takes one from the lines that it has left, but for a Work lock
/// that another holds and an unlock that failed; its cost is left at first.
pub fn a_heals_machine_comes_nearer()
    ensures asked { HealAsksNearer }
    ensures rooted { HealAsksRooted }
    ensures begun { HealBeginsNearer }
    ensures end { HealEndLeft }
    ensures start { HealCosts }
{
    each_note_stands();
    a_heal_stays_sound();
    a_heal_comes_nearer();
    a_heal_keeps_its_area();
}

/// So does each line of a round, which has two lines of its own and the cost of each object that its index lists.
pub fn a_round_comes_nearer()
    ensures start { RoundCosts }
    ensures index { IndexNearer }
    ensures follows { RoundFollows }
    ensures healed { HealedNearer }
    ensures asked { RoundAsksNearer }
    ensures begun { RoundBeginsNearer }
    ensures ended { RoundHealedNearer }
    ensures end { RoundEndLeft }
{
    a_heals_machine_comes_nearer();
}
