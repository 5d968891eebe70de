//! What a server holds, and meeting it.
ghost use Rattle.std.specs.Prelude.{◌≡◌, ℕ, ◌<◌, [], true};
ghost use Rattle.afr_server.specs.Serving.{HasEpoch, epoch_of, has_session, link_for};
ghost use Rattle.afr_session.specs.Calls.{Does};
ghost use Rattle.afr_session.specs.Calls.Call.{Meet};
ghost use Rattle.afr_session.specs.Links.{fresh_link, link_of, live_epoch};

use afr_base::ActorId;
use afr_brick::Brick;
use afr_faults::FaultPlan;
use afr_lines::Answer;
use afr_name_locks::NameLocks;
use afr_range_locks::RangeLocks;
use afr_session::Sessions;
use std::alloc::Global;
use std::marker::Model;

/// An answer, and whether the brick carried the request out.
#[derive(Debug, Drop)]
pub struct Served {
    pub answer: Answer,
    pub took: bool,
}

/// One brick of a volume, behind its locks, the sessions of the actors, whose numbers are below 20,
/// and the faults that are planned for it. No lock outlives the session of its owner.
#[derive(Drop)]
pub struct Server {
    pub(crate) alloc: Global,
    pub(crate) brick: Brick,
    pub(crate) ranges: RangeLocks,
    pub(crate) names: NameLocks,
    pub(crate) sessions: Sessions,
    pub(crate) faults: FaultPlan,
}

impl Model for Server {
    ghost use Rattle.afr_server.specs.Serving.{IsGuarded, Serving};

    ghost Value = { Serving };

    ghost view = { λ s. record { copies = s.brick; ranges = s.ranges; names = s.names; links = s.sessions; faults = s.faults } };

    ghost invariant = { λ s. IsGuarded s.sessions s.ranges s.names };
}

impl Server {
    /// The brick is started, all links are up, nobody has a session, and nothing is locked.
    pub fn new(alloc: Global, brick: Brick, faults: FaultPlan) -> Server
        ensures copies { result.copies ≡ brick }
        ensures faults { result.faults ≡ faults }
        ensures ranges { result.ranges ≡ [] }
        ensures names { result.names ≡ [] }
        ensures started { result.links.started ≡ true }
        ensures links { (a : ℕ) → a < 20 → link_of a result.links ≡ fresh_link }
    {
        Server {
            alloc,
            brick,
            ranges: RangeLocks::new(alloc),
            names: NameLocks::new(alloc),
            sessions: Sessions::new(),
            faults,
        }
    }

    /// The epoch of the actor's live session, which is opened where there is none. There is no
    /// answer where the brick is stopped or the link is down.
    pub fn meet(&mut self, actor: ActorId) -> Option<u32>
        requires known { actor.0 < 20 }
        requires room { HasEpoch actor self.old }
        ensures epoch { result ≡ epoch_of actor self.old }
        ensures live { result ≡ live_epoch (link_for actor self.new) }
        ensures does { Does (Meet actor.0) self.old.links self.new.links }
        ensures same { self.new ≡ record self.old { links = self.new.links } }
    {
        self.sessions.meet(actor)
    }

    /// Whether the brick is started.
    pub fn is_up(&self) -> bool
        ensures { result ≡ self.now.links.started }
    {
        self.sessions.is_up()
    }

    /// The copies, for a look from outside: no request is counted.
    pub fn brick(&self) -> &Brick
        ensures { result.now ≡ self.now.copies }
    {
        &self.brick
    }

    /// Whether a request over this epoch has a live session.
    pub(crate) fn is_live(&self, actor: ActorId, epoch: Option<u32>) -> bool
        requires { actor.0 < 20 }
        ensures { result ≡ has_session epoch actor self.now }
    {
        match epoch {
            Some(epoch) => self.sessions.is_live(actor, epoch),
            None => false,
        }
    }
}
