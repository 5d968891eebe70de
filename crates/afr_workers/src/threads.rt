//! A crawl by threads: one for each client, one for the crawler, and one for each worker.
ghost use Rattle.std.specs.Prelude.{◌≡◌, ℕ, ◌<◌, IfOk, IfErr, OnOk, Some, [], slice_get, true};
ghost use Rattle.afr_base.specs.declared.ids.ActorId.{ActorId};
ghost use Rattle.afr_model.specs.Actors.{IsActor};
ghost use Rattle.afr_rule.specs.Choosing.{IsRule};
ghost use Rattle.afr_volume.specs.Right.{IsRightFor};
ghost use Rattle.afr_workers.specs.Crew.{IsCrawled, IsTriedIn};
ghost use Rattle.afr_workers.specs.Handed.{handed};
ghost use Rattle.afr_workers.specs.Workshop.{AreActors, IsBegun, IsOneOf, IsShop};

use crate::crew::Crew;
use crate::ending::finish;
use crate::stepping::{sleeps, steps};
use crate::workshop::{Rests, Workshop};
use afr_base::{ActorId, FIRST_CLIENT, FIRST_HEALER, MOST_HEALERS, NoMemory};
use afr_crowd::{Crowd, Gate, Held, Step, run_crowd};
use afr_order::take_client_orders;
use afr_rule::{Candidate, Rules};
use afr_tasks::Tasks;
use afr_volume::Volume;
use std::alloc::Global;
use std::marker::{Brand, Model, PhantomData};
use std::sync::Wait;
use std::thread::Threads;

/// Which plan it is. Each call picks it, so a volume that comes out from under the lock has the plan that it went in with.
pub trait Named {
    ghost use Rattle.afr_plan.specs.declared.plan.Plan.{Plan};

    ghost plan: { Plan };
}

impl Named for Brand {
    ghost use Rattle.afr_model.specs.State.{no_plan};

    ghost plan = { no_plan };
}

/// What lies under the lock.
#[derive(Drop)]
struct Shared<J: Named> {
    shop: Workshop,
    of: PhantomData<J>,
}

impl<J: Named> Model for Shared<J> {
    ghost use Rattle.std.specs.Prelude.{◌≡◌};
    ghost use Rattle.afr_volume.specs.State.{State};
    ghost use Rattle.afr_workers.specs.Workshop.{IsShop};

    ghost Value = { State };

    ghost view = { λ x. x.shop.volume };

    ghost invariant = { λ x. IsShop x.shop × (x.shop.volume.plan ≡ J.plan) };
}

impl<J: Named> Shared<J> {
    fn new(shop: Workshop) -> Shared<J>
        requires shop { IsShop shop }
        requires plan { shop.volume.plan ≡ J.plan }
    {
        Shared {
            shop,
            of: PhantomData,
        }
    }

    fn into_shop(self) -> Workshop
        ensures shop { IsShop result }
        ensures plan { result.volume.plan ≡ J.plan }
    {
        let Shared { shop, of: _ } = self;
        shop
    }
}

impl<J: Named> Crowd for Shared<J> {
    ghost use Rattle.afr_model.specs.Actors.{IsActor};

    ghost acts = { λ a. IsActor J.plan a };

    fn step<F: Fn(&[Candidate]) -> usize, G: Fn(&[Candidate]) -> usize>(
        &mut self,
        a: ActorId,
        rules: &Rules<F, G>,
    ) -> Step {
        let Shared { shop, .. } = self;
        steps(shop, a, rules)
    }

    fn sleeps(&self, a: ActorId) -> bool {
        sleeps(&self.shop, a)
    }

    fn note_unstarted(&mut self, _a: ActorId) {
        let Shared { shop, .. } = self;
        shop.is_short = true;
    }
}

/// Before the first turn of a thread: nothing was put.
fn opened(alloc: Global, volume: Volume) -> Result<Workshop, (Volume, NoMemory)>
    requires { IsBegun volume }
    ensures ok { IfOk result (λ x. IsShop x × (x.volume ≡ volume)) }
    ensures err { IfErr result (λ e. e.0 ≡ volume) }
{
    let Ok(tasks) = Tasks::empty(alloc) else {
        return Err((volume, NoMemory));
    };
    let crew = Crew::of_log(volume.lines());
    Ok(Workshop {
        volume,
        tasks,
        crew,
        stops: 0,
        held: Held::new(),
        rests: Rests {
            crawler: false,
            second: true,
            third: true,
        },
        no_memory: false,
        is_short: false,
    })
}

/// One actor more.
fn push_actor(actors: &mut Vec<ActorId>, clients: u16, a: ActorId) -> Result<(), NoMemory>
    requires all { AreActors clients actors.old.items }
    requires own { IsOneOf clients a.0 }
    ensures { OnOk result (AreActors clients actors.new.items) }
{
    match actors.push(a) {
        Ok(()) => Ok(()),
        Err(_) => Err(NoMemory),
    }
}

/// One client more.
fn push_client(actors: &mut Vec<ActorId>, clients: u16, i: u16) -> Result<(), NoMemory>
    requires all { AreActors clients actors.old.items }
    requires within { i < clients }
    ensures { OnOk result (AreActors clients actors.new.items) }
{
    push_actor(actors, clients, ActorId(FIRST_CLIENT + i))
}

/// The crawler, or a worker.
fn push_healer(actors: &mut Vec<ActorId>, clients: u16, i: u16) -> Result<(), NoMemory>
    requires all { AreActors clients actors.old.items }
    requires within { i < 3 }
    ensures { OnOk result (AreActors clients actors.new.items) }
{
    push_actor(actors, clients, ActorId(FIRST_HEALER + i))
}

/// The clients, the crawler and the workers.
fn all_actors(alloc: Global, clients: u16) -> Result<Vec<ActorId>, NoMemory>
    ensures { IfOk result (λ actors. AreActors clients actors.items) }
{
    let mut actors = Vec::new(alloc);
    for i in 0..clients {
        push_client(&mut actors, clients, i)?;
    }
    for i in 0..MOST_HEALERS {
        push_healer(&mut actors, clients, i)?;
    }
    Ok(actors)
}

/// Runs the plan of a volume whose healers crawl by threads: first the orders of its clients, then one thread for each client,
/// one for the crawler and one for each worker. The volume lies under a lock, and beside it a queue of at most 64 tasks: the
/// crawler puts the items of its lists, in their order, and two stops at its end; a worker takes a task, has it assigned and
/// its first turn in one taking of the lock. Who can do nothing sleeps until another has taken a turn. A worker that was killed,
/// or finds the log full, goes on taking without trying. Want of memory ends every thread. What is left once all threads have
/// ended is done here. It returns if the threads do.
pub fn crawl<
    R: Threads + Wait + Sync,
    F: Fn(&[Candidate]) -> usize + Sync,
    G: Fn(&[Candidate]) -> usize + Sync,
    H: Gate + Sync,
>(
    rt: &R,
    alloc: Global,
    volume: Volume,
    rules: &Rules<F, G>,
    gate: &H,
) -> Result<Volume, (Volume, NoMemory)>
    requires rule { IsRule F.Fn rules.now.heal }
    requires read_rule { IsRule G.Fn rules.now.read }
    requires crawls { volume.crawl ≡ true }
    requires fresh { volume.log ≡ [] }
    ensures plan { (handed result).plan ≡ volume.plan }
    ensures crawls { (handed result).crawl ≡ true }
    ensures right { IsRightFor true (handed result).plan (handed result).log }
    ensures complete { IfOk result (λ v. IsCrawled v) }
    ensures tried { IfOk result (λ v. IsTriedIn v) }
{
    match crawl_as::<Brand, R, F, G, H>(rt, alloc, volume, rules, gate) {
        Ok(volume) => {
            volume.every_line();
            Ok(volume)
        }
        Err((volume, stop)) => {
            volume.every_line();
            Err((volume, stop))
        }
    }
}

/// The crawl of the plan that `J` names.
fn crawl_as<
    J: Named + Send + Sync,
    R: Threads + Wait + Sync,
    F: Fn(&[Candidate]) -> usize + Sync,
    G: Fn(&[Candidate]) -> usize + Sync,
    H: Gate + Sync,
>(
    rt: &R,
    alloc: Global,
    volume: Volume,
    rules: &Rules<F, G>,
    gate: &H,
) -> Result<Volume, (Volume, NoMemory)>
    requires rule { IsRule F.Fn rules.now.heal }
    requires read_rule { IsRule G.Fn rules.now.read }
    requires name { volume.plan ≡ J.plan }
    requires crawls { volume.crawl ≡ true }
    requires fresh { volume.log ≡ [] }
    ensures plan { (handed result).plan ≡ volume.plan }
    ensures crawls { (handed result).crawl ≡ true }
    ensures complete { IfOk result (λ v. IsCrawled v) }
    ensures tried { IfOk result (λ v. IsTriedIn v) }
{
    volume.every_line();
    let mut volume = volume;
    let ordered = take_client_orders(&mut volume, rules);
    match ordered {
        Ok(_) => by_threads::<J, R, F, G, H>(rt, alloc, volume, rules, gate),
        Err(stop) => Err((volume, stop)),
    }
}

/// What follows the orders.
fn by_threads<
    J: Named + Send + Sync,
    R: Threads + Wait + Sync,
    F: Fn(&[Candidate]) -> usize + Sync,
    G: Fn(&[Candidate]) -> usize + Sync,
    H: Gate + Sync,
>(
    rt: &R,
    alloc: Global,
    volume: Volume,
    rules: &Rules<F, G>,
    gate: &H,
) -> Result<Volume, (Volume, NoMemory)>
    requires rule { IsRule F.Fn rules.now.heal }
    requires read_rule { IsRule G.Fn rules.now.read }
    requires name { volume.plan ≡ J.plan }
    requires begun { IsBegun volume }
    ensures plan { (handed result).plan ≡ volume.plan }
    ensures crawls { (handed result).crawl ≡ true }
    ensures complete { IfOk result (λ v. IsCrawled v) }
    ensures tried { IfOk result (λ v. IsTriedIn v) }
{
    volume.every_line();
    let clients = volume.plan().clients.len() as u16;
    let Ok(actors) = all_actors(alloc, clients) else {
        return Err((volume, NoMemory));
    };
    match opened(alloc, volume) {
        Ok(shop) => in_threads::<J, R, F, G, H>(rt, shop, actors.as_slice(), rules, gate),
        Err((volume, stop)) => Err((volume, stop)),
    }
}

/// A thread for each of these actors, and then what is left.
fn in_threads<
    J: Named + Send + Sync,
    R: Threads + Wait + Sync,
    F: Fn(&[Candidate]) -> usize + Sync,
    G: Fn(&[Candidate]) -> usize + Sync,
    H: Gate + Sync,
>(
    rt: &R,
    shop: Workshop,
    actors: &[ActorId],
    rules: &Rules<F, G>,
    gate: &H,
) -> Result<Volume, (Volume, NoMemory)>
    requires rule { IsRule F.Fn rules.now.heal }
    requires read_rule { IsRule G.Fn rules.now.read }
    requires name { shop.volume.plan ≡ J.plan }
    requires shop { IsShop shop }
    requires actors { (i : ℕ) (a : ActorId) → slice_get actors.now i ≡ Some a → IsActor J.plan a.0 }
    ensures plan { (handed result).plan ≡ shop.volume.plan }
    ensures crawls { (handed result).crawl ≡ true }
    ensures complete { IfOk result (λ v. IsCrawled v) }
    ensures tried { IfOk result (λ v. IsTriedIn v) }
{
    let shared: Shared<J> = run_crowd(rt, Shared::new(shop), actors, rules, gate);
    finish(rt, shared.into_shop(), rules)
}
