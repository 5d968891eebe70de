//! The next line of an actor keeps the discipline in full: laws for whoever adds a line to a log.
#![tactic(auto)]

ghost use Rattle.afr_law_next.specs.Asked.{AllowedMayBeAsked, AnsweredIsLawful, AskedIsNoted};
ghost use Rattle.afr_law_next.specs.Begun.{AllowedMayBegin};
ghost use Rattle.afr_law_next.specs.Ended.{AllowedMayEnd};
ghost use Rattle.afr_law_next.specs.Happened.{EventKeepsAll};
ghost use Rattle.afr_law_next.specs.Healed.{AllowedMayHealBegin, AllowedMayHealEnd};
ghost use Rattle.afr_law_next.specs.Ready.{NextIsReady};
ghost use Rattle.afr_law_next.specs.Turn.{BeginsAnew, EachLineIsKept, GoesOn};

use afr_discipline::{each_move_is_decided, each_note_stands};
use afr_law::{lawful_lines_are_covered, lawful_lines_fit};

/// A line of an actor whose register allows it is lawful, the register after it stands for one line more, and so do the
/// registers of all other actors.
pub fn a_turn_keeps_the_discipline()
    ensures anew { BeginsAnew }
    ensures goes_on { GoesOn }
    ensures kept { EachLineIsKept }
{
    each_move_is_decided();
    each_note_stands();
}

/// A line that its actor's register allows comes next in a log that keeps the discipline in full, and all registers stand
/// for one line more. `asks`: a request that the register allows may be asked. `asked`: whatever is told of it, the register
/// that notes it stands. `lawful`: with its honest answer the log keeps the discipline. `begins`, `ends`, `heal_begins`,
/// `heal_ends` and `event` are of Begin, End, HealBegin and HealEnd lines and of events. `premises`: what a brick needs
/// before it carries the request out.
pub fn the_next_line_is_lawful()
    ensures asks { AllowedMayBeAsked }
    ensures asked { AskedIsNoted }
    ensures lawful { AnsweredIsLawful }
    ensures begins { AllowedMayBegin }
    ensures ends { AllowedMayEnd }
    ensures heal_begins { AllowedMayHealBegin }
    ensures heal_ends { AllowedMayHealEnd }
    ensures event { EventKeepsAll }
    ensures premises { NextIsReady }
{
    a_turn_keeps_the_discipline();
    lawful_lines_fit();
    lawful_lines_are_covered();
}
