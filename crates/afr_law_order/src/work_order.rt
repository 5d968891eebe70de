//! The order in which a client's work asks for its Work locks.

ghost use Rattle.afr_law_order.specs.Work.Logs.{ClientRises, TellsLeadDown};
ghost use Rattle.afr_law_order.specs.Work.Queue.{WorkBeginsQueued, WorkBegunQueued, WorkStaysQueued};
ghost use Rattle.afr_law_order.specs.Work.Rising.{WorkAsksAbove};

use afr_law_names::entries_lead_down;

/// Whatever command it is and whatever the bricks answer: a work asks for each Work lock above all that it holds, of a greater
/// object or of the same one on a higher brick (`above`), since it asks the bricks of each area in rising order (`start`,
/// `stays`, `begun`), and for the directory that it removes after its name, which stands in one with a lesser number (`down`).
/// So each Work lock that a client asks for in a log of a plan rises above those that it holds by its lines (`rises`).
pub fn a_client_asks_in_rising_order()
    ensures start { WorkBeginsQueued }
    ensures stays { WorkStaysQueued }
    ensures begun { WorkBegunQueued }
    ensures above { WorkAsksAbove }
    ensures down { TellsLeadDown }
    ensures rises { ClientRises }
{
    entries_lead_down();
}
