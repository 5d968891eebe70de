//! An actor's visit to the bricks: the sessions over which its present work, or heal, goes.
ghost use Rattle.std.specs.Prelude.{◌≡◌, ◌<◌, ℕ, true, false, OnOk, OnErr};
ghost use Rattle.afr_server.specs.Serving.{HasEpoch};
ghost use Rattle.afr_servers.specs.Calls.{At};
ghost use Rattle.afr_servers.specs.Visiting.{CanAsk, IsServed, MeetsNext, visiting};

use crate::epochs::Epochs;
use crate::servers::Servers;
use afr_base::{ActorId, BrickId, NoMemory};
use afr_lines::Request;
use afr_object::Load;
use afr_server::Served;

/// The first line of a work, or of a heal, meets every brick. Each later one goes over the sessions that the first one met.
#[derive(Clone, Copy)]
pub struct Visit {
    /// Whether the bricks were met.
    pub met: bool,
    /// The sessions that were found or opened then.
    pub epochs: Epochs,
}

impl Visit {
    /// No brick is met yet.
    pub fn new() -> Visit
        ensures { result.met ≡ false }
    {
        Visit {
            met: false,
            epochs: Epochs::none(),
        }
    }

    /// A request of an actor, and what goes with it. What it is given is written in its place, for an answer is large. Want of
    /// memory changes nothing.
    pub fn ask(
        &mut self,
        actor: ActorId,
        brick: BrickId,
        request: &Request,
        load: Load<'_>,
        servers: &mut Servers,
        given: &mut Served,
    ) -> Result<(), NoMemory>
        requires known { actor.0 < 20 }
        requires room { (y : ℕ) → At y servers.old (HasEpoch actor) }
        requires can { CanAsk actor self.old brick request.now load servers.old }
        ensures ok { OnOk result (IsServed actor self.old self.new brick request.now load.entry servers.old servers.new given.new) }
        ensures err { OnErr result ((self.new ≡ self.old) × (servers.new ≡ servers.old)) }
    {
        if self.met {
            return servers.ask(actor, &self.epochs, brick, request, load, given);
        }
        self.ask_first(actor, brick, request, load, servers, given)
    }

    /// It stands apart, so that only first lines pay for its frame.
    #[inline(never)]
    fn ask_first(
        &mut self,
        actor: ActorId,
        brick: BrickId,
        request: &Request,
        load: Load<'_>,
        servers: &mut Servers,
        given: &mut Served,
    ) -> Result<(), NoMemory>
        requires first { self.old.met ≡ false }
        requires known { actor.0 < 20 }
        requires room { (y : ℕ) → At y servers.old (HasEpoch actor) }
        requires can { CanAsk actor self.old brick request.now load servers.old }
        ensures ok { OnOk result (IsServed actor self.old self.new brick request.now load.entry servers.old servers.new given.new) }
        ensures err { OnErr result ((self.new ≡ self.old) × (servers.new ≡ servers.old)) }
    {
        let epochs = servers.ask_first(actor, brick, request, load, given)?;
        self.epochs = epochs;
        self.met = true;
        Ok(())
    }

    /// A line that is no request meets every brick, too, where it is the first.
    pub fn meet(&mut self, actor: ActorId, servers: &mut Servers)
        requires known { actor.0 < 20 }
        requires room { (y : ℕ) → At y servers.old (HasEpoch actor) }
        ensures met { self.new ≡ visiting self.new.epochs }
        ensures all { MeetsNext self.old.met actor self.old.epochs servers.old servers.new self.new.epochs }
    {
        if !self.met {
            self.epochs = servers.meet_all(actor);
            self.met = true;
        }
    }
}
