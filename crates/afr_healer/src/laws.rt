//! What holds of every line of a healer.
ghost use Rattle.afr_healer.specs.Laws.{CanStepNext, LineKeepsRound, OthersStay, RoundsBegin, RoundsEnd, TasksBegin};

use afr_discipline::each_note_stands;
use afr_heal_machine::a_heal_stays_sound;
use afr_law_heal::{a_heal_hears_what_it_asked, a_heal_tells_its_lines};
use afr_law_next::{a_turn_keeps_the_discipline, the_next_line_is_lawful};
use afr_servers::servers_follow_their_log;

/// A healer whose round stands for its lines has what its next line needs of the bricks (`can`); that line is honest, lawful, the
/// plan's, and about its round, and the round stands for it (`keeps`); a line of anybody else, or an event, leaves the round as
/// it was (`others`). A round that begins stands for no lines (`begins`), and so does a task (`tasks`); a healer that has ended
/// its rounds has none (`ends`). All this is so whether the healers crawl or not.
pub fn a_healer_keeps_its_round()
    ensures can { CanStepNext }
    ensures keeps { LineKeepsRound }
    ensures others { OthersStay }
    ensures begins { RoundsBegin }
    ensures tasks { TasksBegin }
    ensures ends { RoundsEnd }
{
    a_turn_keeps_the_discipline();
    the_next_line_is_lawful();
    servers_follow_their_log();
    each_note_stands();
    a_heal_stays_sound();
    a_heal_tells_its_lines();
    a_heal_hears_what_it_asked();
}
