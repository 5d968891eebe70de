//! An actor: the machine of its present command, the sessions that it works over, and how many commands it has ended.
ghost use Rattle.std.specs.Prelude.{true, false, ◌≡◌, ◌<◌, ◌-◌, ◌^◌, ◌++◌, ◌∷◌, [], ℕ, OnOk, OnErr};
ghost use Rattle.afr_healer.specs.Acting.{Adds};
ghost use Rattle.afr_rule.specs.Choosing.{IsRule};
ghost use Rattle.afr_server.specs.NextLine.{told_line};
ghost use Rattle.afr_server.specs.Serving.{HasEpoch};
ghost use Rattle.afr_servers.specs.Calls.{At};
ghost use Rattle.afr_servers.specs.Visiting.{MeetsNext, visiting};
ghost use Rattle.afr_discipline.specs.Free.{is_ask};
ghost use Rattle.afr_client.specs.Work.{IsBusy, next_of};
ghost use Rattle.afr_volume.specs.Acting.{CanStep, HasHeard, HearsBy, IsAsked, IsBegun, IsEnded, Stepped, Written, picked_after, still_picked};

use afr_base::{ActorId, BrickId, NoMemory};
use afr_client::Work;
use afr_law_fits::{fits_its_types, request_fits_its_types};
use afr_lines::{Answer, Line, Next, Reply, Request};
use afr_log::Log;
use afr_object::Change;
use afr_rule::{Candidate, ReadRule};
use afr_server::Served;
use afr_servers::{Exchange, Servers, Visit};

#[derive(Drop)]
pub(crate) struct Actor {
    /// How many works have ended.
    pub ended: u32,
    pub killed: bool,
    /// The sessions of the present work.
    pub visit: Visit,
    /// What the read rule answered at the last look of the latest work.
    pub picked: Option<BrickId>,
    pub work: Work,
}

/// One line of an actor whose work has begun, at the end of a log that has room for it. Its memory is taken before anything
/// changes. Whoever makes the line adds it: it is large, and is moved no further. The answer that ends a work's looks asks the
/// rule for the copy that is read.
pub(crate) fn step<G: Fn(&[Candidate]) -> usize>(
    actor: &mut Actor,
    a: ActorId,
    servers: &mut Servers,
    position: u32,
    log: &mut Log,
    exchange: &mut Exchange,
    rule: &ReadRule<G>,
) -> Result<(), NoMemory>
    requires rule { IsRule G.Fn rule.now }
    requires busy { IsBusy actor.old.work }
    requires room { actor.old.ended < 2 ^ 32 - 1 }
    requires can { CanStep a position actor.old servers.old }
    requires space { log.old.room ≡ true }
    ensures ok { OnOk result (Adds (λ line. Stepped (HearsBy G.Fn rule.now) a position actor.old actor.new servers.old servers.new line) log.old.items log.new.items) }
    ensures err { OnErr result ((actor.new ≡ actor.old) × (servers.new ≡ servers.old) × (log.new.items ≡ log.old.items)) }
{
    match actor.work.asks(&mut exchange.request) {
        Some(brick) => asks(
            actor,
            a,
            brick,
            &exchange.request,
            servers,
            position,
            log,
            &mut exchange.given,
            rule,
        ),
        None => writes(actor, a, servers, position, log),
    }
}

/// A line that is no request: the work ends, or an attempt begins. It stands apart, so that only such lines pay for its frame.
#[inline(never)]
fn writes(
    actor: &mut Actor,
    a: ActorId,
    servers: &mut Servers,
    position: u32,
    log: &mut Log,
) -> Result<(), NoMemory>
    requires other { is_ask (next_of position actor.old.work) ≡ false }
    requires room { actor.old.ended < 2 ^ 32 - 1 }
    requires known { a.0 < 20 }
    requires epochs { (b : ℕ) → At b servers.old (HasEpoch a) }
    requires space { log.old.room ≡ true }
    ensures ok { OnOk result (Adds (λ line. Written a position actor.old actor.new servers.old servers.new line) log.old.items log.new.items) }
    ensures err { OnErr result ((actor.new ≡ actor.old) × (servers.new ≡ servers.old) × (log.new.items ≡ log.old.items)) }
{
    if let Some(reply) = actor.work.end()? {
        return Ok(ends(actor, a, reply, servers, log));
    }
    // What asks nobody and isn't over begins an attempt.
    match actor.work.begins(position)? {
        Some(change) => Ok(begins(actor, a, change, servers, position, log)),
        None => Ok(()),
    }
}

/// What is picked after a request: what the rule answers now, at a look and at a work's first line, and else what it had
/// picked.
fn pick_after(
    met: bool,
    request: &Request,
    now: Option<BrickId>,
    kept: Option<BrickId>,
) -> Option<BrickId>
    ensures { result ≡ picked_after met request.now now kept }
{
    if !met || matches!(request, Request::Look { .. }) {
        now
    } else {
        kept
    }
}

/// The work hears the answer to this request, which is its first line or another.
fn hear<G: Fn(&[Candidate]) -> usize>(
    actor: &mut Actor,
    met: bool,
    brick: BrickId,
    request: &Request,
    answer: &mut Answer,
    position: u32,
    rule: &ReadRule<G>,
)
    requires rule { IsRule G.Fn rule.now }
    requires asked { next_of position actor.old.work ≡ Next.Ask brick request.now }
    ensures { HasHeard (HearsBy G.Fn rule.now) answer.old position met request.now actor.old actor.new }
{
    let now = actor.work.hear(brick, request, answer, position, rule);
    actor.picked = pick_after(met, request, now, actor.picked);
}

/// The line of a request that was served, and the work hears its answer.
fn tells<G: Fn(&[Candidate]) -> usize>(
    actor: &mut Actor,
    met: bool,
    a: ActorId,
    brick: BrickId,
    request: &Request,
    given: &mut Served,
    position: u32,
    log: &mut Log,
    rule: &ReadRule<G>,
)
    requires rule { IsRule G.Fn rule.now }
    requires asked { next_of position actor.old.work ≡ Next.Ask brick request.now }
    requires space { log.old.room ≡ true }
    ensures added { log.new.items ≡ log.old.items ++ told_line a brick request.now given.old ∷ [] }
    ensures heard { HasHeard (HearsBy G.Fn rule.now) given.old.answer position met request.now actor.old actor.new }
{
    log.add_ask(a, brick, request, &given.answer, given.took);
    hear(
        actor,
        met,
        brick,
        request,
        &mut given.answer,
        position,
        rule,
    );
}

/// The request of a line, and what the work makes of the answer. The first line of a work meets every brick.
fn asks<G: Fn(&[Candidate]) -> usize>(
    actor: &mut Actor,
    a: ActorId,
    brick: BrickId,
    request: &Request,
    servers: &mut Servers,
    position: u32,
    log: &mut Log,
    given: &mut Served,
    rule: &ReadRule<G>,
) -> Result<(), NoMemory>
    requires rule { IsRule G.Fn rule.now }
    requires next { next_of position actor.old.work ≡ Next.Ask brick request.now }
    requires can { CanStep a position actor.old servers.old }
    requires space { log.old.room ≡ true }
    ensures ok { OnOk result (Adds (λ line. IsAsked (HearsBy G.Fn rule.now) a position brick request.now actor.old actor.new servers.old servers.new line) log.old.items log.new.items) }
    ensures err { OnErr result ((actor.new ≡ actor.old) × (servers.new ≡ servers.old) × (log.new.items ≡ log.old.items)) }
{
    request_fits_its_types(request);
    let met = actor.visit.met;
    let visit = &mut actor.visit;
    let work = &actor.work;
    // The answer is told and heard where it lies: it is large, and is not to be moved.
    visit.ask(a, brick, request, work.load(), servers, given)?;
    tells(actor, met, a, brick, request, given, position, log, rule);
    Ok(())
}

/// A first line that is no request meets every brick, too. It asks no rule.
fn meets(actor: &mut Actor, a: ActorId, servers: &mut Servers)
    requires known { a.0 < 20 }
    requires room { (b : ℕ) → At b servers.old (HasEpoch a) }
    ensures met { MeetsNext actor.old.visit.met a actor.old.visit.epochs servers.old servers.new actor.new.visit.epochs }
    ensures same { actor.new ≡ record actor.old { visit = visiting actor.new.visit.epochs; picked = still_picked actor.old.visit.met actor.old.picked } }
{
    if !actor.visit.met {
        actor.picked = None;
    }
    actor.visit.meet(a, servers);
}

#[inline(never)]
fn begins(
    actor: &mut Actor,
    a: ActorId,
    change: Change,
    servers: &mut Servers,
    position: u32,
    log: &mut Log,
)
    requires known { a.0 < 20 }
    requires room { (b : ℕ) → At b servers.old (HasEpoch a) }
    requires space { log.old.room ≡ true }
    ensures { Adds (λ line. IsBegun a position change actor.old actor.new servers.old servers.new line) log.old.items log.new.items }
{
    meets(actor, a, servers);
    actor.work.begun(position);
    let line = Line::Begin { actor: a, change };
    fits_its_types(&line);
    log.add(line);
}

#[inline(never)]
fn ends(actor: &mut Actor, a: ActorId, reply: Reply, servers: &mut Servers, log: &mut Log)
    requires room { actor.old.ended < 2 ^ 32 - 1 }
    requires known { a.0 < 20 }
    requires epochs { (b : ℕ) → At b servers.old (HasEpoch a) }
    requires space { log.old.room ≡ true }
    ensures { Adds (λ line. IsEnded a reply actor.old actor.new servers.old servers.new line) log.old.items log.new.items }
{
    meets(actor, a, servers);
    actor.ended += 1;
    actor.visit.met = false;
    actor.work.rest();
    let line = Line::End { actor: a, reply };
    fits_its_types(&line);
    log.add(line);
}
