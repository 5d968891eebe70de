//! One actor among all takes a turn.
ghost use Rattle.std.specs.Prelude.{◌≡◌, ◌-◌, ◌<◌, ◌≤◌, ◌+◌, ◌^◌, ℕ, true, false, IfOk, OnOk, OnErr, Option, Some, None, slice_get, length};
ghost use Rattle.afr_plan.specs.declared.command.Command.{Command};
ghost use Rattle.afr_model.specs.Actors.{script_of};
ghost use Rattle.afr_volume.specs.declared.actor.Actor.{Actor};
ghost use Rattle.afr_healer.specs.Acting.{Adds};
ghost use Rattle.afr_rule.specs.Choosing.{IsRule};
ghost use Rattle.afr_volume.specs.Acting.{CanStep, HearsBy};
ghost use Rattle.afr_volume.specs.Turning.{HasVictim, KillsIn, ReadiedAt, StepsAt};
ghost use Rattle.afr_client.specs.Begin.{has_machine};
ghost use Rattle.afr_client.specs.Work.{IsBusy};

use crate::actor::{Actor, step};
use crate::turned::Turned;
use afr_base::{ActorId, MOST_CLIENTS, NoMemory};
use afr_lines::Event;
use afr_log::Log;
use afr_plan::Plan;
use afr_rule::{Candidate, ReadRule};
use afr_servers::{Exchange, Servers};
use std::alloc::Global;

/// An actor that has work left has the machine of its present command.
pub(crate) fn ready_actor(
    alloc: Global,
    plan: &Plan,
    a: ActorId,
    actors: &mut Vec<Actor>,
) -> Result<(), NoMemory>
    requires few { plan.now.shape.n ≤ 5 }
    requires some { 0 < plan.now.shape.n }
    requires one { 1 ≤ a.0 }
    requires within { a.0 - 1 < length actors.old.items }
    requires client { a.0 - 1 < length plan.now.clients }
    requires left { (x : Actor) → slice_get actors.old.items (a.0 - 1) ≡ Some x → x.ended < length (script_of plan.now a.0) }
    requires commands { (k : ℕ) (command : Command) → slice_get (script_of plan.now a.0) k ≡ Some command → has_machine command ≡ true }
    ensures ok { OnOk result (ReadiedAt plan.now a.0 actors.old.items actors.new.items) }
    ensures err { OnErr result (actors.new.items ≡ actors.old.items) }
{
    let at = a.0 as usize - 1;
    if !actors[at].work.is_idle() {
        actors[at].work.stays_sound();
        return Ok(());
    }
    let script = plan.clients.item(at);
    let command = script.item(actors[at].ended as usize);
    actors[at].work.begin(alloc, plan.shape, command)?;
    Ok(())
}

/// One line of an actor whose command has begun. Its reads ask the copies that the rule picks.
pub(crate) fn step_actor<G: Fn(&[Candidate]) -> usize>(
    a: ActorId,
    actors: &mut Vec<Actor>,
    servers: &mut Servers,
    position: u32,
    log: &mut Log,
    exchange: &mut Exchange,
    rule: &ReadRule<G>,
) -> Result<(), NoMemory>
    requires rule { IsRule G.Fn rule.now }
    requires one { 1 ≤ a.0 }
    requires within { a.0 - 1 < length actors.old.items }
    requires busy { (x : Actor) → slice_get actors.old.items (a.0 - 1) ≡ Some x → IsBusy x.work × (x.ended < 2 ^ 32 - 1) }
    requires can { (x : Actor) → slice_get actors.old.items (a.0 - 1) ≡ Some x → CanStep a position x servers.old }
    requires space { log.old.room ≡ true }
    ensures ok { OnOk result (Adds (λ line. StepsAt (HearsBy G.Fn rule.now) a position actors.old.items actors.new.items servers.old servers.new line) log.old.items log.new.items) }
    ensures err { OnErr result ((actors.new.items ≡ actors.old.items) × (servers.new ≡ servers.old) × (log.new.items ≡ log.old.items)) }
{
    step(
        &mut actors[a.0 as usize - 1],
        a,
        servers,
        position,
        log,
        exchange,
        rule,
    )
}

/// The client that an event kills is dead from then on.
pub(crate) fn kill(actors: &mut Vec<Actor>, event: Event)
    requires few { length actors.old.items ≤ 16 }
    requires there { HasVictim event actors.old.items }
    ensures { KillsIn event actors.old.items actors.new.items }
{
    if let Event::Kill(a) = event {
        if a.0 <= MOST_CLIENTS {
            actors[a.0 as usize - 1].killed = true;
        }
    }
}

/// What a turn that added a line answers.
pub(crate) fn answer_of(waits: Option<ActorId>) -> Turned
    ensures some { (owner : ActorId) → waits ≡ Some owner → result ≡ Turned.Waits owner }
    ensures none { waits ≡ None → result ≡ Turned.Moved }
{
    match waits {
        Some(owner) => Turned::Waits(owner),
        None => Turned::Moved,
    }
}
