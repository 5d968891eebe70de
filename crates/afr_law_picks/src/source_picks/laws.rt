//! What holds of the source of every heal.
ghost use Rattle.afr_law_picks.specs.Sources.Laws.{LineKeepsSource};

use afr_heal_machine::a_heal_stays_sound;
use afr_healer::a_healer_keeps_its_round;
use afr_rule::{Candidate, SourceRule};

/// Each line of a healer whose round asks this rule keeps the running heal to its source, which the rule picked by the heal's
/// first looks: it reads there and mends elsewhere. A heal that ends had such a source, if it went on past its first looks.
pub fn a_line_keeps_its_source<F: Fn(&[Candidate]) -> usize>(rule: &SourceRule<F>)
    ensures keeps { LineKeepsSource F.Fn rule.now }
{
    let _ = rule;
    a_healer_keeps_its_round();
    a_heal_stays_sound();
}
