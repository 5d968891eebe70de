//! One request: by its session and its planned fault it is refused, carried out and answered, or carried out with its answer lost.
ghost use Rattle.std.specs.Prelude.{◌≡◌, ℕ, ◌<◌, ◌-◌, ◌^◌, true, false, Some, None, IfOk, OnOk, OnErr};
ghost use Rattle.afr_faults.specs.Planned.{next_fault};
ghost use Rattle.afr_server.specs.Carried.{CanCarryOut, CanLock};
ghost use Rattle.afr_server.specs.Covered.{IsUnderLocks};
ghost use Rattle.afr_lines.specs.Locks.{without_owner};
ghost use Rattle.afr_server.specs.Outcome.{Serves, counted, fails, is_carried_out, link_served, loses, lost_if};
ghost use Rattle.afr_server.specs.Serving.{HasEpoch, epoch_of, has_session, is_met, link_for};
ghost use Rattle.afr_session.specs.Calls.{Does, only};
ghost use Rattle.afr_session.specs.Calls.Call.{End};
ghost use Rattle.afr_session.specs.Links.{link_of, opens};

use crate::carry_out::carry_out;
use crate::server::{Served, Server};
use afr_base::{ActorId, NoMemory};
use afr_faults::FaultPlan;
use afr_lines::{Answer, Fault, Request};
use afr_object::Load;
use afr_session::Sessions;

impl Server {
    /// Without a live session the answer is `NotConnected`. A request that the plan refuses is told
    /// `Failed`. Any other is carried out, and where its answer is lost the session ends. Each
    /// request is counted; want of memory changes nothing, the count included. O(log n) steps on n
    /// objects, names and faults, one for each lock on the brick and for each byte or name that is
    /// moved; an index takes one for each listed object. What is given is written in its place, for an
    /// answer is large.
    pub fn ask(
        &mut self,
        actor: ActorId,
        epoch: Option<u32>,
        request: &Request,
        load: Load<'_>,
        given: &mut Served,
    ) -> Result<(), NoMemory>
        requires known { actor.0 < 20 }
        requires count { self.old.faults.requests < 2 ^ 32 - 1 }
        requires lock { CanLock request.now }
        requires can { is_carried_out (has_session epoch actor self.old) (next_fault self.old.faults) ≡ true → CanCarryOut request.now load self.old.copies.objects }
        requires covered { is_carried_out (has_session epoch actor self.old) (next_fault self.old.faults) ≡ true → IsUnderLocks actor request.now load self.old }
        ensures ok { OnOk result (Serves false (has_session epoch actor self.old) (next_fault self.old.faults) actor request.now load.entry self.old self.new given.new) }
        ensures err { OnErr result (self.new ≡ self.old) }
    {
        let live = self.is_live(actor, epoch);
        self.serve(actor, live, false, request, load, given)
    }

    /// The first line of a work or of a heal: the brick is met as the request comes, once its memory
    /// is there. The epoch that the meeting gave is answered too; its actor asks on over it, and
    /// doesn't meet this brick again, since a lost answer has ended that session.
    pub fn ask_first(
        &mut self,
        actor: ActorId,
        request: &Request,
        load: Load<'_>,
        given: &mut Served,
    ) -> Result<Option<u32>, NoMemory>
        requires known { actor.0 < 20 }
        requires count { self.old.faults.requests < 2 ^ 32 - 1 }
        requires room { HasEpoch actor self.old }
        requires lock { CanLock request.now }
        requires can { is_carried_out (is_met actor self.old) (next_fault self.old.faults) ≡ true → CanCarryOut request.now load self.old.copies.objects }
        requires covered { is_carried_out (is_met actor self.old) (next_fault self.old.faults) ≡ true → IsUnderLocks actor request.now load self.old }
        ensures epoch { IfOk result (λ epoch. epoch ≡ epoch_of actor self.old) }
        ensures ok { OnOk result (Serves true (is_met actor self.old) (next_fault self.old.faults) actor request.now load.entry self.old self.new given.new) }
        ensures err { OnErr result (self.new ≡ self.old) }
    {
        let epoch = self.sessions.peek(actor);
        self.serve(actor, epoch.is_some(), true, request, load, given)?;
        Ok(epoch)
    }

    fn serve(
        &mut self,
        actor: ActorId,
        live: bool,
        first: bool,
        request: &Request,
        load: Load<'_>,
        given: &mut Served,
    ) -> Result<(), NoMemory>
        requires known { actor.0 < 20 }
        requires count { self.old.faults.requests < 2 ^ 32 - 1 }
        requires room { first ≡ true → HasEpoch actor self.old }
        requires reach { live ≡ true → (link_served first false self.old.links.started (link_for actor self.old)).live ≡ true }
        requires lock { CanLock request.now }
        requires can { is_carried_out live (next_fault self.old.faults) ≡ true → CanCarryOut request.now load self.old.copies.objects }
        ensures ok { OnOk result (Serves first live (next_fault self.old.faults) actor request.now load.entry self.old self.new given.new) }
        ensures err { OnErr result (self.new ≡ self.old) }
    {
        if !live {
            self.unreached(actor, first, given);
            return Ok(());
        }
        let fault = self.faults.peek();
        if fails(fault) {
            self.fail(actor, first, given);
            return Ok(());
        }
        self.carry(loses(fault), actor, first, request, load, given)
    }

    /// There is no live session. It stands apart, as `fail` does, so that only such requests pay for a frame that holds an
    /// answer.
    #[inline(never)]
    fn unreached(&mut self, actor: ActorId, first: bool, given: &mut Served)
        requires known { actor.0 < 20 }
        requires count { self.old.faults.requests < 2 ^ 32 - 1 }
        requires room { first ≡ true → HasEpoch actor self.old }
        ensures asked { given.new ≡ record { answer = Answer.NotConnected; took = false } }
        ensures same { self.new ≡ record self.old { links = self.new.links; faults = counted self.old.faults } }
        ensures started { self.new.links.started ≡ self.old.links.started }
        ensures links { (x : ℕ) → link_of x self.new.links ≡ only actor.0 x (link_served first false self.old.links.started) (link_of x self.old.links) }
    {
        self.refuse(actor, first, Answer::NotConnected, given);
    }

    /// The plan lets the request fail.
    #[inline(never)]
    fn fail(&mut self, actor: ActorId, first: bool, given: &mut Served)
        requires known { actor.0 < 20 }
        requires count { self.old.faults.requests < 2 ^ 32 - 1 }
        requires room { first ≡ true → HasEpoch actor self.old }
        ensures asked { given.new ≡ record { answer = Answer.Failed; took = false } }
        ensures same { self.new ≡ record self.old { links = self.new.links; faults = counted self.old.faults } }
        ensures started { self.new.links.started ≡ self.old.links.started }
        ensures links { (x : ℕ) → link_of x self.new.links ≡ only actor.0 x (link_served first false self.old.links.started) (link_of x self.old.links) }
    {
        self.refuse(actor, first, Answer::Failed, given);
    }

    /// The request isn't carried out.
    fn refuse(&mut self, actor: ActorId, first: bool, answer: Answer, given: &mut Served)
        requires known { actor.0 < 20 }
        requires count { self.old.faults.requests < 2 ^ 32 - 1 }
        requires room { first ≡ true → HasEpoch actor self.old }
        ensures asked { given.new ≡ record { answer = answer; took = false } }
        ensures same { self.new ≡ record self.old { links = self.new.links; faults = counted self.old.faults } }
        ensures started { self.new.links.started ≡ self.old.links.started }
        ensures links { (x : ℕ) → link_of x self.new.links ≡ only actor.0 x (link_served first false self.old.links.started) (link_of x self.old.links) }
    {
        count(&mut self.sessions, &mut self.faults, actor, first);
        given.answer = answer;
        given.took = false;
    }

    /// The request is carried out, and answered unless its answer is lost.
    fn carry(
        &mut self,
        lost: bool,
        actor: ActorId,
        first: bool,
        request: &Request,
        load: Load<'_>,
        given: &mut Served,
    ) -> Result<(), NoMemory>
        requires known { actor.0 < 20 }
        requires count { self.old.faults.requests < 2 ^ 32 - 1 }
        requires room { first ≡ true → HasEpoch actor self.old }
        requires reach { (link_served first false self.old.links.started (link_for actor self.old)).live ≡ true }
        requires lock { CanLock request.now }
        requires can { CanCarryOut request.now load self.old.copies.objects }
        ensures ok { OnOk result (Serves first true (lost_if lost) actor request.now load.entry self.old self.new given.new) }
        ensures err { OnErr result (self.new ≡ self.old) }
    {
        self.answer(actor, first, request, load, given)?;
        if !lost {
            return Ok(());
        }
        self.lose(actor, given);
        Ok(())
    }

    /// The request is carried out and answered.
    fn answer(
        &mut self,
        actor: ActorId,
        first: bool,
        request: &Request,
        load: Load<'_>,
        given: &mut Served,
    ) -> Result<(), NoMemory>
        requires known { actor.0 < 20 }
        requires count { self.old.faults.requests < 2 ^ 32 - 1 }
        requires room { first ≡ true → HasEpoch actor self.old }
        requires reach { (link_served first false self.old.links.started (link_for actor self.old)).live ≡ true }
        requires lock { CanLock request.now }
        requires can { CanCarryOut request.now load self.old.copies.objects }
        ensures ok { OnOk result (Serves first true None actor request.now load.entry self.old self.new given.new) }
        ensures err { OnErr result (self.new ≡ self.old) }
    {
        carry_out(
            &mut self.brick,
            &mut self.ranges,
            &mut self.names,
            actor,
            request,
            load,
            &mut given.answer,
        )?;
        count(&mut self.sessions, &mut self.faults, actor, first);
        given.took = true;
        Ok(())
    }

    /// The answer is lost, and the session ends.
    #[inline(never)]
    fn lose(&mut self, actor: ActorId, given: &mut Served)
        requires { actor.0 < 20 }
        ensures given { given.new ≡ record { answer = Answer.NotConnected; took = true } }
        ensures same { self.new ≡ record self.old { links = self.new.links; ranges = without_owner actor self.old.ranges; names = without_owner actor self.old.names } }
        ensures links { Does (End actor.0) self.old.links self.new.links }
    {
        self.end(actor);
        *given = Served {
            answer: Answer::NotConnected,
            took: true,
        };
    }
}

/// Whether the plan lets the request fail.
fn fails(fault: Option<Fault>) -> bool
    ensures { result ≡ fails fault }
{
    match fault {
        Some(Fault::Fail) => true,
        Some(Fault::Lost) | None => false,
    }
}

/// Whether its answer is lost.
fn loses(fault: Option<Fault>) -> bool
    ensures { result ≡ loses fault }
{
    match fault {
        Some(Fault::Lost) => true,
        Some(Fault::Fail) | None => false,
    }
}

/// Counts the request; the first of a work meets the brick. It takes no memory, so it comes after all that does.
fn count(sessions: &mut Sessions, faults: &mut FaultPlan, actor: ActorId, first: bool)
    requires known { actor.0 < 20 }
    requires count { faults.old.requests < 2 ^ 32 - 1 }
    requires room { first ≡ true → opens sessions.old.started (link_of actor.0 sessions.old) ≡ true → (link_of actor.0 sessions.old).opened < 2 ^ 32 - 1 }
    ensures faults { faults.new ≡ counted faults.old }
    ensures started { sessions.new.started ≡ sessions.old.started }
    ensures links { (x : ℕ) → link_of x sessions.new ≡ only actor.0 x (link_served first false sessions.old.started) (link_of x sessions.old) }
{
    if first {
        sessions.meet(actor);
    }
    faults.next_request();
}
