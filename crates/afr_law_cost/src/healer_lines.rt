//! What a healer's round writes stays within the cost of its round.

ghost use Rattle.afr_law_cost.specs.Healer.Laws.{IndexIsShown, RoundPacedAtFirst, RoundPacedLine, RoundPacedOther, RoundPacedReady};

use crate::round_lines::a_round_comes_nearer;
use afr_healer::a_healer_keeps_its_round;
use afr_servers::servers_follow_their_log;

/// A healer that has begun nothing is within its costs (`first`), and stays so as a round begins (`ready`), with each line that
/// its round writes (`line`), and with each line beside it (`others`). A line of its own is within the cost of its round, and
/// leaves room for the End line. It needs that an index lists no more objects than there can be; `index` says what an index
/// lists: what the tables of its brick show.
pub fn a_round_keeps_within_its_cost()
    ensures first { RoundPacedAtFirst }
    ensures ready { RoundPacedReady }
    ensures line { RoundPacedLine }
    ensures others { RoundPacedOther }
    ensures index { IndexIsShown }
{
    a_round_comes_nearer();
    a_healer_keeps_its_round();
    servers_follow_their_log();
}
