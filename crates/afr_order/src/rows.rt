//! The orders of the plan, and passes over all actors.
ghost use Rattle.std.specs.Prelude.{◌≡◌, ◌≤◌, ◌<◌, ◌+◌, ◌^◌, ℕ, true, false, Ok, OnOk, IfOk, length};
ghost use Rattle.std.specs.List.{range_with_len};
ghost use Rattle.afr_model.specs.Actors.{IsActor, is_done};
ghost use Rattle.afr_model.specs.Complete.{IsComplete};
ghost use Rattle.afr_model.specs.Ordered.{actors_of, ordered_turns};
ghost use Rattle.afr_order.specs.Onward.{Extends};
ghost use Rattle.afr_rule.specs.Choosing.{IsRule};
ghost use Rattle.afr_volume.specs.Right.{KeepsChosen};
ghost use Rattle.afr_volume.specs.Going.{ClientsAreDone, ClientsRun, Goes, TakesFront, TakesPasses, Ends, IsIdle};

use crate::turns::{take_turn, take_turns};
use afr_base::{ActorId, FIRST_CLIENT, FIRST_HEALER, MOST_CLIENTS, NoMemory};
use afr_plan::Go;
use afr_rule::{Candidate, Rules};
use afr_volume::{Volume, come_due};

/// All orders of the plan. It answers whether the log had room.
pub(crate) fn all_orders<F: Fn(&[Candidate]) -> usize, G: Fn(&[Candidate]) -> usize>(
    volume: &mut Volume,
    rules: &Rules<F, G>,
) -> Result<bool, NoMemory>
    requires rule { IsRule F.Fn rules.now.heal }
    requires read_rule { IsRule G.Fn rules.now.read }
    ensures goes { Goes volume.old volume.new }
    ensures front { TakesFront volume.old.plan (ordered_turns volume.old.plan.go) volume.old.log volume.new.log }
    ensures ok { IfOk result (λ on. Ends (ordered_turns volume.old.plan.go) volume.old on volume.new) }
    ensures chosen { KeepsChosen F.Fn G.Fn rules.now volume.old volume.new }
{
    volume.every_line();
    let orders = volume.plan().go.len();
    for i in 0..orders {
        let go = *volume.plan().go.item(i);
        if !take_turns(volume, go.actor, go.count, rules)? {
            return Ok(false);
        }
    }
    Ok(true)
}

/// The orders of clients; those of healers are passed over. It answers whether the log had room.
pub(crate) fn client_orders<F: Fn(&[Candidate]) -> usize, G: Fn(&[Candidate]) -> usize>(
    volume: &mut Volume,
    rules: &Rules<F, G>,
) -> Result<bool, NoMemory>
    requires rule { IsRule F.Fn rules.now.heal }
    requires read_rule { IsRule G.Fn rules.now.read }
    ensures goes { Goes volume.old volume.new }
    ensures runs { ClientsRun volume.old volume.new }
    ensures full { result ≡ Ok false → length volume.new.log ≡ volume.new.plan.turns }
{
    volume.every_line();
    let count = volume.plan().go.len();
    for i in 0..count {
        let go = *volume.plan().go.item(i);
        if !client_order(volume, go, rules)? {
            return Ok(false);
        }
    }
    Ok(true)
}

/// One order, where it is a client's. It answers whether the log had room.
fn client_order<F: Fn(&[Candidate]) -> usize, G: Fn(&[Candidate]) -> usize>(
    volume: &mut Volume,
    go: Go,
    rules: &Rules<F, G>,
) -> Result<bool, NoMemory>
    requires rule { IsRule F.Fn rules.now.heal }
    requires read_rule { IsRule G.Fn rules.now.read }
    requires actor { IsActor volume.old.plan go.actor.0 }
    ensures goes { Goes volume.old volume.new }
    ensures runs { ClientsRun volume.old volume.new }
    ensures full { result ≡ Ok false → length volume.new.log ≡ volume.new.plan.turns }
{
    if go.actor.0 > MOST_CLIENTS {
        return Ok(true);
    }
    take_turns(volume, go.actor, go.count, rules)
}

/// A turn of each of so many actors. It answers whether the log had room.
fn take_row<F: Fn(&[Candidate]) -> usize, G: Fn(&[Candidate]) -> usize>(
    volume: &mut Volume,
    first: u16,
    count: u16,
    rules: &Rules<F, G>,
) -> Result<bool, NoMemory>
    requires rule { IsRule F.Fn rules.now.heal }
    requires read_rule { IsRule G.Fn rules.now.read }
    requires fits { first + count < 2 ^ 16 }
    requires actors { (k : ℕ) → k < count → IsActor volume.old.plan (first + k) }
    ensures goes { Goes volume.old volume.new }
    ensures onto { Extends volume.old.log volume.new.log }
    ensures front { TakesFront volume.old.plan (range_with_len first count) volume.old.log volume.new.log }
    ensures ok { IfOk result (λ on. Ends (range_with_len first count) volume.old on volume.new) }
    ensures done { result ≡ Ok true → length volume.new.log ≤ length volume.old.log → (k : ℕ) → k < count → is_done volume.new.plan (first + k) volume.new.log ≡ true }
    ensures chosen { KeepsChosen F.Fn G.Fn rules.now volume.old volume.new }
{
    for i in 0..count {
        if !take_turn(volume, ActorId(first + i), rules)? {
            return Ok(false);
        }
    }
    Ok(true)
}

/// How many clients from the first on are done; so many are known to be.
fn count_done(volume: &Volume, known: u16) -> u16
    requires { ClientsAreDone known volume.now }
    ensures { ClientsAreDone result volume.now }
{
    volume.every_line();
    let clients = volume.plan().clients.len() as u16;
    for i in known..clients {
        if !volume.is_done(ActorId(FIRST_CLIENT + i)) {
            return i;
        }
    }
    clients
}

/// A turn of each client; so many from the first on are done, and are passed over. It answers whether the log had room.
fn take_clients<F: Fn(&[Candidate]) -> usize, G: Fn(&[Candidate]) -> usize>(
    volume: &mut Volume,
    done: u16,
    clients: u16,
    rules: &Rules<F, G>,
) -> Result<bool, NoMemory>
    requires rule { IsRule F.Fn rules.now.heal }
    requires read_rule { IsRule G.Fn rules.now.read }
    requires fits { 1 + clients < 2 ^ 16 }
    requires within { done ≤ clients }
    requires done { (k : ℕ) → k < done → is_done volume.old.plan (1 + k) volume.old.log ≡ true }
    requires actors { (k : ℕ) → k < clients → IsActor volume.old.plan (1 + k) }
    ensures goes { Goes volume.old volume.new }
    ensures onto { Extends volume.old.log volume.new.log }
    ensures front { TakesFront volume.old.plan (range_with_len 1 clients) volume.old.log volume.new.log }
    ensures ok { IfOk result (λ on. Ends (range_with_len 1 clients) volume.old on volume.new) }
    ensures done { result ≡ Ok true → length volume.new.log ≤ length volume.old.log → (k : ℕ) → k < clients → is_done volume.new.plan (1 + k) volume.new.log ≡ true }
    ensures chosen { KeepsChosen F.Fn G.Fn rules.now volume.old volume.new }
{
    take_row(volume, FIRST_CLIENT + done, clients - done, rules)
}

/// A turn of each actor, and the events that are due then; so many clients from the first on are done. It answers whether the
/// log had room.
fn take_pass<F: Fn(&[Candidate]) -> usize, G: Fn(&[Candidate]) -> usize>(
    volume: &mut Volume,
    done: u16,
    rules: &Rules<F, G>,
) -> Result<bool, NoMemory>
    requires rule { IsRule F.Fn rules.now.heal }
    requires read_rule { IsRule G.Fn rules.now.read }
    requires done { ClientsAreDone done volume.old }
    ensures goes { Goes volume.old volume.new }
    ensures onto { Extends volume.old.log volume.new.log }
    ensures front { TakesFront volume.old.plan (actors_of volume.old.plan) volume.old.log volume.new.log }
    ensures ok { IfOk result (λ on. Ends (actors_of volume.old.plan) volume.old on volume.new) }
    ensures idle { result ≡ Ok true → length volume.new.log ≤ length volume.old.log → IsIdle volume.new }
    ensures chosen { KeepsChosen F.Fn G.Fn rules.now volume.old volume.new }
{
    volume.every_line();
    let clients = volume.plan().clients.len() as u16;
    let healers = volume.plan().healers.len() as u16;
    if !take_clients(volume, done, clients, rules)? {
        return Ok(false);
    }
    if !take_row(volume, FIRST_HEALER, healers, rules)? {
        return Ok(false);
    }
    come_due(volume)?;
    Ok(true)
}

/// Pass after pass, until every actor is done or the log is full.
pub(crate) fn all_passes<F: Fn(&[Candidate]) -> usize, G: Fn(&[Candidate]) -> usize>(
    volume: &mut Volume,
    rules: &Rules<F, G>,
) -> Result<(), NoMemory>
    requires rule { IsRule F.Fn rules.now.heal }
    requires read_rule { IsRule G.Fn rules.now.read }
    requires plain { volume.old.crawl ≡ false }
    ensures goes { Goes volume.old volume.new }
    ensures onto { Extends volume.old.log volume.new.log }
    ensures front { TakesPasses volume.old.plan volume.old.log volume.new.log }
    ensures ok { OnOk result (IsComplete volume.new.plan volume.new.log) }
    ensures chosen { KeepsChosen F.Fn G.Fn rules.now volume.old volume.new }
{
    let mut done = 0;
    loop {
        done = count_done(volume, done);
        let before = volume.len();
        if !take_pass(volume, done, rules)? {
            return Ok(());
        }
        volume.every_line();
        if volume.len() == before {
            return Ok(());
        }
    }
}
