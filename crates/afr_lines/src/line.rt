//! A line of the log, and what an actor would write next.

use crate::answer::{Answer, Told};
use crate::reply::{HealReply, Reply};
use crate::request::Request;
use afr_base::{ActorId, BrickId, Gfid, Kind};
use afr_object::Change;

/// What the plan does to bricks, links and actors.
#[derive(Clone, Copy, Debug)]
pub enum Event {
    Stop(BrickId),
    Start(BrickId),
    Cut(ActorId, BrickId),
    Join(ActorId, BrickId),
    Kill(ActorId),
}

/// One line of the log. `took` says whether the brick carried the request out.
#[derive(Debug, Drop)]
pub enum Line {
    Ask {
        actor: ActorId,
        brick: BrickId,
        request: Request,
        told: Told,
        took: bool,
    },
    /// An attempt. Its number is the position of this line.
    Begin {
        actor: ActorId,
        change: Change,
    },
    /// A piece of a heal. Its number is the position of this line.
    HealBegin {
        actor: ActorId,
        gfid: Gfid,
        kind: Kind,
    },
    End {
        actor: ActorId,
        reply: Reply,
    },
    HealEnd {
        actor: ActorId,
        gfid: Gfid,
        kind: Kind,
        reply: HealReply,
    },
    Event {
        event: Event,
    },
}

/// The next line of an actor, before it is carried out.
#[derive(Debug, Drop)]
pub enum Next {
    Ask(BrickId, Request),
    Begin(Change),
    HealBegin(Gfid, Kind),
    End(Reply),
    HealEnd(Gfid, Kind, HealReply),
}

/// What an actor hears of its line. The number is the line's position.
#[derive(Debug, Drop)]
pub enum Heard {
    Answer(Answer, u32),
    Begun(u32),
}
