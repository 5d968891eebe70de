//! What holds of the reads of every client.
ghost use Rattle.afr_law_picks.specs.Laws.{AnswersOneOf, BeginKeepsPicked, EndReadsPicked, LineAsksRule, LineKeepsPicked, LineReadsPicked, ReadingBegins};

use afr_client::a_work_stays_sound;
use afr_law_heard::a_work_tells_its_lines;
use afr_rule::{Candidate, ReadRule};

/// Whatever the rule, the copy that a client's work reads next is the one that was picked at the last look of its lines, of the
/// good copies by these looks.
pub fn a_work_reads_what_was_picked()
    ensures begins { ReadingBegins }
    ensures line { LineKeepsPicked }
    ensures begun { BeginKeepsPicked }
{
    a_work_stays_sound();
    a_work_tells_its_lines();
}

/// This rule is asked once the looks at an object that is read are over, for its good copies, and for nothing else. Each line
/// that reads goes to the brick that it answered, and a stat tells the length that this brick showed.
pub fn a_work_asks_the_rule<G: Fn(&[Candidate]) -> usize>(rule: &ReadRule<G>)
    ensures among { AnswersOneOf G.Fn rule.now }
    ensures asks { LineAsksRule G.Fn rule.now }
    ensures reads { LineReadsPicked G.Fn rule.now }
    ensures ends { EndReadsPicked G.Fn rule.now }
{
    let _ = rule;
    a_work_stays_sound();
    a_work_tells_its_lines();
}
