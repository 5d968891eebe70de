//! What is left once all threads have ended.
ghost use Rattle.std.specs.Prelude.{◌≡◌, ◌⊎◌, IfOk, false, length, true};
ghost use Rattle.afr_rule.specs.Choosing.{IsRule};
ghost use Rattle.afr_tasks.specs.Exchange.{queued_in};
ghost use Rattle.afr_workers.specs.Crew.{IsCrawled, IsCrew, IsTriedIn};
ghost use Rattle.afr_workers.specs.Handed.{handed};
ghost use Rattle.afr_workers.specs.Workshop.{IsKept, IsShop};

use crate::crew::{Crew, SECOND, THIRD};
use crate::passes::all_passes;
use crate::stepping::steps;
use crate::workshop::{Workshop, is_full};
use afr_base::{ActorId, FIRST_CLIENT, FIRST_HEALER, NoMemory};
use afr_rule::{Candidate, Rules};
use afr_volume::Volume;
use std::sync::Wait;

/// A turn of each client.
fn pass_clients<F: Fn(&[Candidate]) -> usize, G: Fn(&[Candidate]) -> usize>(
    x: &mut Workshop,
    rules: &Rules<F, G>,
)
    requires rule { IsRule F.Fn rules.now.heal }
    requires read_rule { IsRule G.Fn rules.now.read }
    requires shop { IsShop x.old }
    ensures { IsKept x.old x.new }
{
    x.volume.every_line();
    let clients = x.volume.plan().clients.len() as u16;
    for i in 0..clients {
        steps(x, ActorId(FIRST_CLIENT + i), rules);
    }
}

/// A turn of the crawler and one of each worker.
fn pass_healers<F: Fn(&[Candidate]) -> usize, G: Fn(&[Candidate]) -> usize>(
    x: &mut Workshop,
    rules: &Rules<F, G>,
)
    requires rule { IsRule F.Fn rules.now.heal }
    requires read_rule { IsRule G.Fn rules.now.read }
    requires shop { IsShop x.old }
    ensures { IsKept x.old x.new }
{
    steps(x, ActorId(FIRST_HEALER), rules);
    steps(x, ActorId(SECOND), rules);
    steps(x, ActorId(THIRD), rules);
}

/// A turn of each actor.
fn pass<F: Fn(&[Candidate]) -> usize, G: Fn(&[Candidate]) -> usize>(
    x: &mut Workshop,
    rules: &Rules<F, G>,
)
    requires rule { IsRule F.Fn rules.now.heal }
    requires read_rule { IsRule G.Fn rules.now.read }
    requires shop { IsShop x.old }
    ensures { IsKept x.old x.new }
{
    pass_clients(x, rules);
    pass_healers(x, rules);
}

/// Pass after pass, until one has added no line and no task waits, or the log is full, or memory was wanting. An actor that is
/// held has no turn in them.
fn drain<R: Wait, F: Fn(&[Candidate]) -> usize, G: Fn(&[Candidate]) -> usize>(
    rt: &R,
    x: &mut Workshop,
    rules: &Rules<F, G>,
)
    requires rule { IsRule F.Fn rules.now.heal }
    requires read_rule { IsRule G.Fn rules.now.read }
    requires shop { IsShop x.old }
    ensures kept { IsKept x.old x.new }
    ensures over { (x.new.no_memory ≡ true) ⊎ ((length x.new.volume.log ≡ x.new.volume.plan.turns) ⊎ (queued_in x.new.tasks ≡ 0)) }
{
    for _ in rt.forever() {
        let before = x.volume.len();
        pass(x, rules);
        if is_drained(x, before) {
            return;
        }
    }
    unreachable!()
}

/// Whether nothing is left for such passes, after one before which the log was so long.
fn is_drained(x: &Workshop, before: u32) -> bool
    ensures { result ≡ true → (x.now.no_memory ≡ true) ⊎ ((length x.now.volume.log ≡ x.now.volume.plan.turns) ⊎ (queued_in x.now.tasks ≡ 0)) }
{
    if x.no_memory {
        return true;
    }
    if is_full(&x.volume) {
        return true;
    }
    if x.tasks.queued() > 0 {
        return false;
    }
    x.volume.len() == before
}

/// Passes in which items are given that no thread has put, where no task waits.
fn give_rest<F: Fn(&[Candidate]) -> usize, G: Fn(&[Candidate]) -> usize>(
    volume: Volume,
    crew: Crew,
    rules: &Rules<F, G>,
) -> Result<Volume, (Volume, NoMemory)>
    requires rule { IsRule F.Fn rules.now.heal }
    requires read_rule { IsRule G.Fn rules.now.read }
    requires crew { IsCrew crew volume }
    ensures plan { (handed result).plan ≡ volume.plan }
    ensures crawls { (handed result).crawl ≡ true }
    ensures complete { IfOk result (λ v. IsCrawled v) }
    ensures tried { IfOk result (λ v. IsTriedIn v) }
{
    let mut volume = volume;
    let mut crew = crew;
    let passed = all_passes(&mut volume, &mut crew, rules);
    volume.every_line();
    match passed {
        Ok(()) => Ok(volume),
        Err(stop) => Err((volume, stop)),
    }
}

/// The turns that are left where memory wasn't wanting.
fn finish_drained<F: Fn(&[Candidate]) -> usize, G: Fn(&[Candidate]) -> usize>(
    shop: Workshop,
    rules: &Rules<F, G>,
) -> Result<Volume, (Volume, NoMemory)>
    requires rule { IsRule F.Fn rules.now.heal }
    requires read_rule { IsRule G.Fn rules.now.read }
    requires shop { IsShop shop }
    requires memory { shop.no_memory ≡ false }
    requires drained { (length shop.volume.log ≡ shop.volume.plan.turns) ⊎ (queued_in shop.tasks ≡ 0) }
    ensures plan { (handed result).plan ≡ shop.volume.plan }
    ensures crawls { (handed result).crawl ≡ true }
    ensures complete { IfOk result (λ v. IsCrawled v) }
    ensures tried { IfOk result (λ v. IsTriedIn v) }
{
    let Workshop {
        volume,
        tasks,
        crew,
        ..
    } = shop;
    if is_full(&volume) {
        return Ok(volume);
    }
    tasks.all_are_taken();
    give_rest(volume, crew, rules)
}

/// Takes the turns that are left: first those of tasks that wait in the queue, and then passes in which items are given that no
/// thread has put.
pub(crate) fn finish<R: Wait, F: Fn(&[Candidate]) -> usize, G: Fn(&[Candidate]) -> usize>(
    rt: &R,
    shop: Workshop,
    rules: &Rules<F, G>,
) -> Result<Volume, (Volume, NoMemory)>
    requires rule { IsRule F.Fn rules.now.heal }
    requires read_rule { IsRule G.Fn rules.now.read }
    requires shop { IsShop shop }
    ensures plan { (handed result).plan ≡ shop.volume.plan }
    ensures crawls { (handed result).crawl ≡ true }
    ensures complete { IfOk result (λ v. IsCrawled v) }
    ensures tried { IfOk result (λ v. IsTriedIn v) }
{
    let mut shop = shop;
    drain(rt, &mut shop, rules);
    if shop.no_memory {
        let Workshop { volume, .. } = shop;
        return Err((volume, NoMemory));
    }
    finish_drained(shop, rules)
}
