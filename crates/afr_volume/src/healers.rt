//! One healer among all takes a turn.
ghost use Rattle.std.specs.Prelude.{◌≡◌, ◌-◌, ◌<◌, ◌≤◌, ◌^◌, ◌&&◌, ◌||◌, ℕ, OnOk, OnErr, IfOk, None, Some, true, is_some, length, nat_le, nat_lt, not, slice_get};
ghost use Rattle.afr_base.specs.declared.ids.BrickId.{BrickId};
ghost use Rattle.afr_heal_round.specs.Rounding.{IsFed};
ghost use Rattle.afr_model.specs.Actors.{rounds_of};
ghost use Rattle.afr_healer.specs.Acting.{Adds, CanStep};
ghost use Rattle.afr_healer.specs.declared.healer.Healer.{Healer};
ghost use Rattle.afr_rule.specs.Choosing.{IsRule};
ghost use Rattle.afr_volume.specs.Starting.{AreNewHealers};
ghost use Rattle.afr_volume.specs.Turning.{GivesTask, HasHealer, KillsHealersIn, ReadiedHealerAt, RestsFirst, StepsHealerAt};

use afr_base::{ActorId, BrickId, FIRST_HEALER, Gfid, NoMemory, Shape, What};
use afr_healer::{Healer, begin_task, ready_round, step_round};
use afr_lines::Event;
use afr_log::Log;
use afr_plan::Plan;
use afr_rule::{Candidate, SourceRule};
use afr_servers::{Exchange, Servers};
use std::alloc::Global;

/// A healer is this many places further down among the healers than its number.
pub(crate) const HEALERS_FROM: usize = FIRST_HEALER as usize;

/// A healer for each that the plan has, none of which has begun.
pub(crate) fn all_healers(alloc: Global, count: usize) -> Result<Vec<Healer>, NoMemory>
    ensures ok { IfOk result (λ healers. AreNewHealers count healers.items) }
{
    let mut healers = Vec::new(alloc);
    for _ in 0..count {
        healers.push(Healer::new())?;
    }
    Ok(healers)
}

/// The brick of a healer's present round, where none is under way; else any.
fn present_brick(plan: &Plan, a: ActorId, healer: &Healer) -> BrickId
    requires low { 17 ≤ a.0 }
    requires healer { a.0 - 17 < length plan.now.healers }
    requires left { healer.now.round ≡ None → healer.now.ended < length (rounds_of plan.now a.0) }
    ensures { healer.now.round ≡ None → slice_get (rounds_of plan.now a.0) healer.now.ended ≡ Some result }
{
    if healer.round.is_some() {
        return BrickId(0);
    }
    let rounds = plan.healers.item(a.0 as usize - HEALERS_FROM);
    *rounds.item(healer.ended as usize)
}

/// A healer that has a round left or is at a task has its machine, and the memory of its coming move.
pub(crate) fn ready_healer(
    alloc: Global,
    plan: &Plan,
    crawl: bool,
    a: ActorId,
    healers: &mut Vec<Healer>,
) -> Result<(), NoMemory>
    requires few { plan.now.shape.n ≤ 5 }
    requires low { 17 ≤ a.0 }
    requires within { a.0 - 17 < length healers.old.items }
    requires healer { a.0 - 17 < length plan.now.healers }
    requires left { (x : Healer) → slice_get healers.old.items (a.0 - 17) ≡ Some x → x.round ≡ None → x.ended < length (rounds_of plan.now a.0) }
    requires rounds { (k : ℕ) (b : BrickId) → slice_get (rounds_of plan.now a.0) k ≡ Some b → b.0 < plan.now.shape.n }
    ensures ok { OnOk result (ReadiedHealerAt crawl plan.now a.0 healers.old.items healers.new.items) }
    ensures err { OnErr result (healers.new.items ≡ healers.old.items) }
{
    let at = a.0 as usize - HEALERS_FROM;
    let brick = present_brick(plan, a, &healers[at]);
    ready_round(alloc, plan.shape, !crawl, brick, &mut healers[at])?;
    Ok(())
}

/// One line of a healer whose round has begun. The source of its heals is the one that the rule
/// chooses.
pub(crate) fn step_healer<F: Fn(&[Candidate]) -> usize>(
    a: ActorId,
    healers: &mut Vec<Healer>,
    servers: &mut Servers,
    position: u32,
    log: &mut Log,
    exchange: &mut Exchange,
    rule: &SourceRule<F>,
) -> Result<(), NoMemory>
    requires rule { IsRule F.Fn rule.now }
    requires low { 17 ≤ a.0 }
    requires within { a.0 - 17 < length healers.old.items }
    requires busy { (x : Healer) → slice_get healers.old.items (a.0 - 17) ≡ Some x → (is_some x.round ≡ true) × (x.ended < 2 ^ 32 - 1) }
    requires can { (x : Healer) → slice_get healers.old.items (a.0 - 17) ≡ Some x → CanStep a position x servers.old }
    requires space { log.old.room ≡ true }
    ensures ok { OnOk result (Adds (λ line. StepsHealerAt (IsFed F.Fn rule.now) a position healers.old.items healers.new.items servers.old servers.new line) log.old.items log.new.items) }
    ensures err { OnErr result ((healers.new.items ≡ healers.old.items) × (servers.new ≡ servers.old) × (log.new.items ≡ log.old.items)) }
{
    let healer = &mut healers[a.0 as usize - HEALERS_FROM];
    step_round(healer, a, servers, position, log, exchange, rule)?;
    Ok(())
}

/// The first healer drops its round, of which no line was written.
pub(crate) fn rest_first(healers: &mut Vec<Healer>)
    requires { 0 < length healers.old.items }
    ensures { RestsFirst healers.old.items healers.new.items }
{
    healers[0].round = None;
}

/// A healer that is at nothing has the task of one item.
pub(crate) fn give_task(
    alloc: Global,
    shape: Shape,
    a: ActorId,
    gfid: Gfid,
    what: What,
    healers: &mut Vec<Healer>,
) -> Result<(), NoMemory>
    requires few { shape.n ≤ 5 }
    requires some { 0 < shape.n }
    requires low { 17 ≤ a.0 }
    requires within { a.0 - 17 < length healers.old.items }
    ensures ok { OnOk result (GivesTask shape a.0 (gfid, what) healers.old.items healers.new.items) }
    ensures err { OnErr result (healers.new.items ≡ healers.old.items) }
{
    let healer = &mut healers[a.0 as usize - HEALERS_FROM];
    begin_task(alloc, shape, gfid, what, healer)?;
    Ok(())
}

/// Whether a healer has no round left and is at no task, or was killed.
pub(crate) fn is_healer_done(plan: &Plan, crawl: bool, a: ActorId, healers: &Vec<Healer>) -> bool
    requires low { 17 ≤ a.0 }
    requires within { a.0 - 17 < length healers.now.items }
    requires healer { a.0 - 17 < length plan.now.healers }
    ensures { (x : Healer) → slice_get healers.now.items (a.0 - 17) ≡ Some x → result ≡ (x.killed || (not (crawl && (nat_lt 17 a.0 && is_some x.round)) && nat_le (length (rounds_of plan.now a.0)) x.ended)) }
{
    let at = a.0 as usize - HEALERS_FROM;
    let healer = &healers[at];
    let tasked = is_at_task(crawl, at, healer);
    let rounds = plan.healers.item(at).len();
    has_ended(healer, tasked, rounds)
}

/// Whether the healer at this place is a worker that is at a task.
fn is_at_task(crawl: bool, at: usize, healer: &Healer) -> bool
    ensures { result ≡ (crawl && (nat_lt 0 at && is_some healer.now.round)) }
{
    crawl && at > 0 && healer.round.is_some()
}

/// Whether a healer was killed, or is at no task and has ended so many rounds.
fn has_ended(healer: &Healer, tasked: bool, rounds: usize) -> bool
    ensures { result ≡ (healer.now.killed || (not tasked && nat_le rounds healer.now.ended)) }
{
    healer.killed || (!tasked && healer.ended as usize >= rounds)
}

/// The healer that an event kills is dead from then on.
pub(crate) fn kill_healer(healers: &mut Vec<Healer>, event: Event)
    requires { HasHealer event healers.old.items }
    ensures { KillsHealersIn event healers.old.items healers.new.items }
{
    if let Event::Kill(a) = event {
        if a.0 >= FIRST_HEALER {
            healers[a.0 as usize - HEALERS_FROM].killed = true;
        }
    }
}
