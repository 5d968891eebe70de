//! What a server is of a log, and that it stays so.
ghost use Rattle.afr_server.specs.NextLine.{ElsewhereIsServed, EventIsServed, FirstLineIsServed, LineIsServed, MetIsServed, NewIsServed};

/// A new server is that of the empty log. A server of a log that serves a request is the server of
/// the log with that line, which is honest; so it is after an event, and after a line that isn't
/// addressed to it.
pub fn a_server_follows_its_log()
    ensures opening { NewIsServed }
    ensures within { LineIsServed }
    ensures first { FirstLineIsServed }
    ensures elsewhere { ElsewhereIsServed }
    ensures met { MetIsServed }
    ensures event { EventIsServed }
{}
