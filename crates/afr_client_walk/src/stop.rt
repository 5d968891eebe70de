//! Why a command ends without what it asked for.
ghost use Rattle.std.specs.Prelude.{◌≡◌};
ghost use Rattle.afr_client_walk.specs.Stops.{reply_of};

use afr_lines::{KeptReply, Reply};
use afr_object::View;

/// The causes that a walk, and a read at its end, can stop at.
#[derive(Clone, Copy, Debug)]
pub enum Stop {
    NoEntry,
    NotDir,
    IsDir,
    /// Fewer than a majority of the bricks answered.
    NoQuorum,
    /// None of those that answered has a copy.
    FewCopies,
    /// Each copy is accused, as these views show.
    SplitBrain([Option<View>; 5]),
    /// A read was refused.
    Failed,
}

/// The reply of a stop.
pub fn stop_reply(stop: &Stop) -> KeptReply
    ensures { result ≡ reply_of stop.now }
{
    match stop {
        Stop::NoEntry => KeptReply::new(Reply::NoEntry),
        Stop::NotDir => KeptReply::new(Reply::NotDir),
        Stop::IsDir => KeptReply::new(Reply::IsDir),
        Stop::NoQuorum => KeptReply::new(Reply::NoQuorum),
        Stop::FewCopies => KeptReply::new(Reply::FewCopies),
        Stop::SplitBrain(views) => KeptReply::split(views),
        Stop::Failed => KeptReply::new(Reply::Failed),
    }
}
