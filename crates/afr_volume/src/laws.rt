//! The laws that the volume rests on, gathered.
ghost use Rattle.afr_servers.specs.Needs.{StartedAreKnown};
ghost use Rattle.afr_servers.specs.NextLine.{NewAreServed};
ghost use Rattle.afr_volume.specs.Laws.{BeginLaws, EventLaws, Laws, PaceLaws, RoundLaws, RuleLaws};

use afr_client::{a_work_keeps_five_places, a_work_stays_sound};
use afr_heal_machine::a_heal_stays_sound;
use afr_healer::a_healer_keeps_its_round;
use afr_law_cost::{a_round_keeps_within_its_cost, indexes_are_short};
use afr_law_heard::{
    a_client_hears_of_its_names, a_client_hears_of_its_renames, a_client_hears_what_it_asked,
    a_work_tells_its_lines,
};
use afr_law_next::{a_turn_keeps_the_discipline, the_next_line_is_lawful};
use afr_law_order::{a_client_asks_in_rising_order, heals_ask_in_rising_order};
use afr_law_pace::a_work_comes_nearer;
use afr_law_picks::{a_work_asks_the_rule, a_work_reads_what_was_picked};
use afr_rule::{Candidate, ReadRule};
use afr_servers::servers_follow_their_log;

/// What holds of all next lines, works, rounds, answers and servers.
pub(crate) fn laws()
    ensures turns { Laws }
    ensures begins { BeginLaws }
    ensures events { EventLaws }
    ensures rounds { RoundLaws }
    ensures paces { PaceLaws }
    ensures opens { NewAreServed }
    ensures started { StartedAreKnown }
{
    a_turn_keeps_the_discipline();
    the_next_line_is_lawful();
    a_work_stays_sound();
    a_work_keeps_five_places();
    a_work_tells_its_lines();
    a_work_reads_what_was_picked();
    a_client_hears_what_it_asked();
    a_client_hears_of_its_names();
    a_client_hears_of_its_renames();
    servers_follow_their_log();
    a_healer_keeps_its_round();
    a_work_comes_nearer();
    a_client_asks_in_rising_order();
    a_round_keeps_within_its_cost();
    indexes_are_short();
    a_heal_stays_sound();
    heals_ask_in_rising_order();
}

/// What holds of all works that ask this rule for their reads.
pub(crate) fn rule_laws<G: Fn(&[Candidate]) -> usize>(rule: &ReadRule<G>)
    ensures { RuleLaws G.Fn rule.now }
{
    a_work_asks_the_rule(rule);
}
