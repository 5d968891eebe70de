//! What the servers are of a log, and that they stay so.
ghost use Rattle.afr_servers.specs.Needs.{AnswersAreRead, NeedsAreMet, StartedAreKnown};
ghost use Rattle.afr_servers.specs.NextLine.{AskedAreServed, EventAreServed, MetAreServed, NewAreServed, WrittenAreServed};

/// New servers are those of the empty log. Servers of a log are, after a request, a line that is
/// none, or an event, the servers of the log with that line; what an actor found stays the epochs
/// of its live sessions. `needs`: what a request needs of its server follows from what the log says
/// of it. `answers`: what a read is given is what the log's tables have. `started`: the started
/// servers are the started bricks of the log.
pub fn servers_follow_their_log()
    ensures new { NewAreServed }
    ensures asked { AskedAreServed }
    ensures written { WrittenAreServed }
    ensures met { MetAreServed }
    ensures event { EventAreServed }
    ensures needs { NeedsAreMet }
    ensures answers { AnswersAreRead }
    ensures started { StartedAreKnown }
{}
