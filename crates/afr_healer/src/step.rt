//! One line of a healer.
ghost use Rattle.std.specs.Prelude.{◌≡◌, ◌<◌, ◌≤◌, ◌^◌, ◌+◌, ◌-◌, ◌++◌, ◌∷◌, [], List, None, OnOk, OnErr, Some, is_some, true};
ghost use Rattle.afr_heal_round.specs.Rounding.{CanHear, IsFed, next_of, round_from, task_from};
ghost use Rattle.afr_healer.specs.Acting.{Adds, CanStep, CanStepWith, IsAsked, IsBegun, IsEnded, IsHealed, Readies, Stepped, met_after};
ghost use Rattle.afr_healer.specs.declared.healer.Healer.{Healer};
ghost use Rattle.afr_lines.specs.declared.line.Next.{Next};
ghost use Rattle.afr_rule.specs.Choosing.{IsRule};
ghost use Rattle.afr_server.specs.NextLine.{told_line};
ghost use Rattle.afr_server.specs.Serving.{Serving};

use crate::healer::Healer;
use afr_base::{ActorId, BrickId, Gfid, Kind, NoMemory, Shape, What};
use afr_heal_round::{RoundComing, RoundMachine};
use afr_law_fits::{fits_its_types, request_fits_its_types};
use afr_lines::{HealReply, Line, Reply, Request};
use afr_log::Log;
use afr_rule::{Candidate, SourceRule};
use afr_server::Served;
use afr_servers::{Exchange, Servers, Visit};
use std::alloc::Global;

/// A healer has the machine of its present work, and the memory of its coming move. Where it is at nothing a round begins over
/// this brick's index, which heals what it lists, or is over with its list.
pub fn ready_round(
    alloc: Global,
    shape: Shape,
    heals: bool,
    brick: BrickId,
    healer: &mut Healer,
) -> Result<(), NoMemory>
    requires few { shape.n ≤ 5 }
    requires within { healer.old.round ≡ None → brick.0 < shape.n }
    ensures ok { OnOk result (Readies shape heals brick healer.old healer.new) }
    ensures err { OnErr result (healer.new ≡ healer.old) }
{
    match &mut healer.round {
        Some(round) => round.ready(),
        None => {
            begin_round(alloc, shape, heals, brick, healer);
            Ok(())
        }
    }
}

/// A round begins. It stands apart, so that only its first line pays for a frame that holds one.
#[inline(never)]
fn begin_round(alloc: Global, shape: Shape, heals: bool, brick: BrickId, healer: &mut Healer)
    requires few { shape.n ≤ 5 }
    requires within { brick.0 < shape.n }
    ensures { healer.new ≡ record healer.old { round = Some (round_from shape heals brick) } }
{
    healer.round = Some(RoundMachine::new(alloc, shape, heals, brick));
}

/// A healer is given the task of one object.
pub fn begin_task(
    alloc: Global,
    shape: Shape,
    gfid: Gfid,
    what: What,
    healer: &mut Healer,
) -> Result<(), NoMemory>
    requires few { shape.n ≤ 5 }
    requires some { 0 < shape.n }
    ensures ok { OnOk result (healer.new ≡ record healer.old { round = Some (task_from shape (gfid, what)) }) }
    ensures err { OnErr result (healer.new ≡ healer.old) }
{
    healer.round = Some(RoundMachine::task(alloc, shape, gfid, what)?);
    Ok(())
}

/// One line of a healer whose round has begun, at the end of a log that has room for it. Its memory is taken before anything
/// changes. Whoever makes the line adds it: it is large, and is moved no further.
pub fn step_round<F: Fn(&[Candidate]) -> usize>(
    healer: &mut Healer,
    a: ActorId,
    servers: &mut Servers,
    position: u32,
    log: &mut Log,
    exchange: &mut Exchange,
    rule: &SourceRule<F>,
) -> Result<(), NoMemory>
    requires rule { IsRule F.Fn rule.now }
    requires busy { is_some healer.old.round ≡ true }
    requires room { healer.old.ended < 2 ^ 32 - 1 }
    requires can { CanStep a position healer.old servers.old }
    requires space { log.old.room ≡ true }
    ensures ok { OnOk result (Adds (λ line. Stepped (IsFed F.Fn rule.now) a position healer.old healer.new servers.old servers.new line) log.old.items log.new.items) }
    ensures err { OnErr result ((healer.new ≡ healer.old) × (servers.new ≡ servers.old) × (log.new.items ≡ log.old.items)) }
{
    match &mut healer.round {
        Some(round) => match round.asks(&mut exchange.request) {
            RoundComing::Ask(brick) => {
                let visit = &mut healer.visit;
                asks(
                    round,
                    visit,
                    a,
                    brick,
                    &exchange.request,
                    servers,
                    position,
                    log,
                    &mut exchange.given,
                    rule,
                )
            }
            RoundComing::Begin(gfid, kind) => {
                heal_begins(round, a, gfid, kind, position, log);
                Ok(())
            }
            RoundComing::HealEnd(gfid, kind) => {
                let reply = round.heal_end()?;
                heal_ends(round, &mut healer.visit, a, gfid, kind, reply, log);
                Ok(())
            }
            RoundComing::End => {
                let reply = round.end();
                ends(&mut healer.visit, a, reply, log);
                closes(healer);
                Ok(())
            }
        },
        None => Ok(()),
    }
}

/// The round is over. It stands apart, for to let a round go takes a frame that holds its parts.
#[inline(never)]
fn closes(healer: &mut Healer)
    requires { healer.old.ended < 2 ^ 32 - 1 }
    ensures { healer.new ≡ record { ended = healer.old.ended + 1; killed = healer.old.killed; visit = healer.old.visit; round = None } }
{
    healer.ended += 1;
    healer.round = None;
}

/// What is left of the sessions: after an index the first heal opens them anew.
fn stays_met(request: &Request) -> bool
    ensures { result ≡ met_after request.now }
{
    match request {
        Request::Index => false,
        _ => true,
    }
}

/// The line of a request that was served, and the round hears its answer.
fn tells<F: Fn(&[Candidate]) -> usize>(
    round: &mut RoundMachine,
    a: ActorId,
    brick: BrickId,
    request: &Request,
    given: &mut Served,
    position: u32,
    log: &mut Log,
    rule: &SourceRule<F>,
)
    requires rule { IsRule F.Fn rule.now }
    requires asked { next_of round.old ≡ Next.Ask brick request.now }
    requires can { CanHear round.old given.old.answer }
    requires space { log.old.room ≡ true }
    ensures added { log.new.items ≡ log.old.items ++ told_line a brick request.now given.old ∷ [] }
    ensures fed { IsFed F.Fn rule.now given.old.answer position round.old round.new }
{
    log.add_ask(a, brick, request, &given.answer, given.took);
    round.hear(brick, request, &mut given.answer, position, rule);
}

/// The request of a line, and what the round makes of the answer. The first line of a heal meets every brick.
fn asks<F: Fn(&[Candidate]) -> usize>(
    round: &mut RoundMachine,
    visit: &mut Visit,
    a: ActorId,
    brick: BrickId,
    request: &Request,
    servers: &mut Servers,
    position: u32,
    log: &mut Log,
    given: &mut Served,
    rule: &SourceRule<F>,
) -> Result<(), NoMemory>
    requires rule { IsRule F.Fn rule.now }
    requires next { next_of round.old ≡ Next.Ask brick request.now }
    requires can { CanStepWith a visit.old round.old servers.old }
    requires space { log.old.room ≡ true }
    ensures ok { OnOk result ((x : Healer) → Adds (λ line. IsAsked (IsFed F.Fn rule.now) a position brick request.now (record x { visit = visit.old }) (record x { visit = visit.new; round = Some round.new }) round.old servers.old servers.new line) log.old.items log.new.items) }
    ensures err { OnErr result ((round.new ≡ round.old) × (visit.new ≡ visit.old) × (servers.new ≡ servers.old) × (log.new.items ≡ log.old.items)) }
{
    request_fits_its_types(request);
    let load = round.load();
    // The answer is told and heard where it lies: it is large, and is not to be moved.
    visit.ask(a, brick, request, load, servers, given)?;
    tells(round, a, brick, request, given, position, log, rule);
    visit.met = stays_met(request);
    Ok(())
}

#[inline(never)]
fn heal_begins(
    round: &mut RoundMachine,
    a: ActorId,
    gfid: Gfid,
    kind: Kind,
    position: u32,
    log: &mut Log,
)
    requires next { next_of round.old ≡ Next.HealBegin gfid kind }
    requires space { log.old.room ≡ true }
    ensures { (x : Healer) (bricks : List Serving) → Adds (λ line. IsBegun a position gfid kind x (record x { round = Some round.new }) round.old bricks bricks line) log.old.items log.new.items }
{
    round.begun(position);
    let line = Line::HealBegin {
        actor: a,
        gfid,
        kind,
    };
    fits_its_types(&line);
    log.add(line);
}

#[inline(never)]
fn heal_ends(
    round: &mut RoundMachine,
    visit: &mut Visit,
    a: ActorId,
    gfid: Gfid,
    kind: Kind,
    reply: HealReply,
    log: &mut Log,
)
    requires next { next_of round.old ≡ Next.HealEnd gfid kind reply }
    requires space { log.old.room ≡ true }
    ensures { (x : Healer) (bricks : List Serving) → Adds (λ line. IsHealed a gfid kind reply (record x { visit = visit.old }) (record x { visit = visit.new; round = Some round.new }) round.old bricks bricks line) log.old.items log.new.items }
{
    round.healed();
    visit.met = false;
    let line = Line::HealEnd {
        actor: a,
        gfid,
        kind,
        reply,
    };
    fits_its_types(&line);
    log.add(line);
}

#[inline(never)]
fn ends(visit: &mut Visit, a: ActorId, reply: Reply, log: &mut Log)
    requires space { log.old.room ≡ true }
    ensures { (x : Healer) (bricks : List Serving) → Adds (λ line. IsEnded a reply (record x { visit = visit.old }) (record { ended = x.ended + 1; killed = x.killed; visit = visit.new; round = None }) bricks bricks line) log.old.items log.new.items }
{
    visit.met = false;
    let line = Line::End { actor: a, reply };
    fits_its_types(&line);
    log.add(line);
}
