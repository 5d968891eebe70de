//! All servers of a volume, and what an actor or the outside does to them.
ghost use Rattle.std.specs.Prelude.{◌≡◌, ℕ, ◌+◌, ◌-◌, ◌^◌, ◌<◌, ◌≤◌, true, [], length, IfOk, OnOk, OnErr};
ghost use Rattle.afr_faults.specs.Planned.{next_fault};
ghost use Rattle.afr_server.specs.Carried.{CanCarryOut, CanLock};
ghost use Rattle.afr_server.specs.Covered.{IsUnderLocks};
ghost use Rattle.afr_server.specs.Happening.{HasLink};
ghost use Rattle.afr_server.specs.Outcome.{is_carried_out};
ghost use Rattle.afr_server.specs.Serving.{HasEpoch, has_session, is_met};
ghost use Rattle.afr_servers.specs.Calls.{AsksFirst, AsksOne, At, MeetsAll, MeetsEach};
ghost use Rattle.afr_servers.specs.Found.{epoch_at};
ghost use Rattle.afr_servers.specs.Opening.{AreNew};
ghost use Rattle.afr_servers.specs.Started.{is_started, started_in};

use crate::asking::{ask_one, ask_one_first};
use crate::epochs::Epochs;
use crate::events::each_event;
use crate::meeting::meet_between;
use crate::opening::opened_server;
use crate::started::started_among;
use afr_base::{ActorId, BrickId, BrickSet, NoMemory};
use afr_lines::{Event, Request};
use afr_object::Load;
use afr_plan::Plan;
use afr_server::{Served, Server};
use std::alloc::Global;
use std::marker::Model;

/// The servers of a volume's bricks, at most five, in the order of the bricks' numbers.
#[derive(Drop)]
pub struct Servers {
    each: Vec<Server>,
}

impl Model for Servers {
    ghost use Rattle.std.specs.Prelude.{List, ◌≤◌, length};
    ghost use Rattle.afr_server.specs.Serving.{Serving};

    ghost Value = { List Serving };

    ghost view = { λ s. s.each.items };

    ghost invariant = { λ s. length s.each.items ≤ 5 };
}

impl Servers {
    /// No brick. It takes no memory.
    pub fn empty(alloc: Global) -> Servers
        ensures { result ≡ [] }
    {
        Servers {
            each: Vec::new(alloc),
        }
    }

    /// A server for each brick of the plan, over its opening files, with the faults planned for it.
    pub fn new(alloc: Global, plan: &Plan) -> Result<Servers, NoMemory>
        requires { plan.now.shape.n ≤ 5 }
        ensures { IfOk result (λ servers. AreNew plan.now servers) }
    {
        let mut each = Vec::new(alloc);
        for b in 0..plan.shape.n {
            let server = opened_server(alloc, plan, BrickId(b))?;
            each.push(server)?;
        }
        Ok(Servers { each })
    }

    /// A request within a work, over the epoch that its actor found at this brick. What is given is
    /// written in its place, here and below. Want of memory changes nothing.
    pub fn ask(
        &mut self,
        actor: ActorId,
        epochs: &Epochs,
        brick: BrickId,
        request: &Request,
        load: Load<'_>,
        given: &mut Served,
    ) -> Result<(), NoMemory>
        requires known { actor.0 < 20 }
        requires there { brick.0 < length self.old }
        requires count { At brick.0 self.old (λ s. s.faults.requests < 2 ^ 32 - 1) }
        requires lock { CanLock request.now }
        requires can { At brick.0 self.old (λ s. is_carried_out (has_session (epoch_at brick.0 epochs.now) actor s) (next_fault s.faults) ≡ true → CanCarryOut request.now load s.copies.objects) }
        requires covered { At brick.0 self.old (λ s. is_carried_out (has_session (epoch_at brick.0 epochs.now) actor s) (next_fault s.faults) ≡ true → IsUnderLocks actor request.now load s) }
        ensures ok { OnOk result (AsksOne actor epochs.now brick.0 request.now load.entry self.old self.new given.new) }
        ensures err { OnErr result (self.new ≡ self.old) }
    {
        ask_one(&mut self.each, actor, epochs, brick, request, load, given)
    }

    /// The first line of a work or of a heal, where it is a request. The brick that is asked meets
    /// the actor once its memory is there; then the others do, which takes none. Want of memory
    /// changes nothing.
    pub fn ask_first(
        &mut self,
        actor: ActorId,
        brick: BrickId,
        request: &Request,
        load: Load<'_>,
        given: &mut Served,
    ) -> Result<Epochs, NoMemory>
        requires known { actor.0 < 20 }
        requires there { brick.0 < length self.old }
        requires count { At brick.0 self.old (λ s. s.faults.requests < 2 ^ 32 - 1) }
        requires room { (y : ℕ) → At y self.old (HasEpoch actor) }
        requires lock { CanLock request.now }
        requires can { At brick.0 self.old (λ s. is_carried_out (is_met actor s) (next_fault s.faults) ≡ true → CanCarryOut request.now load s.copies.objects) }
        requires covered { At brick.0 self.old (λ s. is_carried_out (is_met actor s) (next_fault s.faults) ≡ true → IsUnderLocks actor request.now load s) }
        ensures ok { IfOk result (λ epochs. AsksFirst actor brick.0 request.now load.entry self.old self.new epochs given.new) }
        ensures err { OnErr result (self.new ≡ self.old) }
    {
        ask_one_first(&mut self.each, actor, brick, request, load, given)
    }

    /// The first line of a work, where it is no request: the actor meets every brick. It takes no
    /// memory.
    pub fn meet_all(&mut self, actor: ActorId) -> Epochs
        requires known { actor.0 < 20 }
        requires room { (y : ℕ) → At y self.old (HasEpoch actor) }
        ensures { MeetsAll actor self.old self.new result }
    {
        let bricks = self.each.len();
        meet_between(&mut self.each, actor, 0, bricks, Epochs::none())
    }

    /// An event comes to every brick; one that names another brick changes nothing at this one. It
    /// takes no memory.
    pub fn event(&mut self, event: &Event)
        requires { HasLink event.now }
        ensures { MeetsEach event.now self.old self.new }
    {
        each_event(&mut self.each, event);
    }

    /// The servers, for a look from outside: no request is counted.
    pub fn servers(&self) -> &[Server]
        ensures value { result.now ≡ self.now }
        ensures few { length result.now ≤ 5 }
    {
        self.each.as_slice()
    }

    /// Whether the brick is started.
    pub fn is_up(&self, brick: BrickId) -> bool
        requires { brick.0 < length self.now }
        ensures { result ≡ is_started brick.0 self.now }
    {
        self.each[brick.0 as usize].is_up()
    }

    /// The bricks that are started.
    pub fn started(&self) -> BrickSet
        ensures { result ≡ started_in self.now }
    {
        started_among(self.each.as_slice())
    }

    /// How many bricks there are.
    pub fn len(&self) -> usize
        ensures { result ≡ length self.now }
    {
        self.each.len()
    }
}
