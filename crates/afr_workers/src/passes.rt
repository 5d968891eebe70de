//! Passes over all actors of a crawl.
ghost use Rattle.std.specs.Prelude.{◌≡◌, ◌⊎◌, ◌+◌, ◌≤◌, ◌<◌, ℕ, Ok, OnOk, false, length, true};
ghost use Rattle.afr_rule.specs.Choosing.{IsRule};
ghost use Rattle.afr_volume.specs.Tasks.{is_done_in};
ghost use Rattle.afr_workers.specs.Crew.{IsAtRest, IsCrew, IsStill, Leads, TakesNone};

use crate::crew::{Crew, SECOND, THIRD};
use crate::due::come;
use crate::turns::{take_task, take_turn};
use afr_base::{ActorId, FIRST_CLIENT, FIRST_HEALER, NoMemory};
use afr_rule::{Candidate, Rules};
use afr_volume::Volume;

/// A turn of each client. It answers whether the log had room.
fn take_clients<F: Fn(&[Candidate]) -> usize, G: Fn(&[Candidate]) -> usize>(
    volume: &mut Volume,
    crew: &mut Crew,
    rules: &Rules<F, G>,
) -> Result<bool, NoMemory>
    requires rule { IsRule F.Fn rules.now.heal }
    requires read_rule { IsRule G.Fn rules.now.read }
    requires crew { IsCrew crew.old volume.old }
    ensures crew { IsCrew crew.new volume.new }
    ensures leads { Leads volume.old volume.new }
    ensures still { result ≡ Ok true → length volume.new.log ≤ length volume.old.log → IsStill volume.old crew.old volume.new crew.new }
    ensures done { result ≡ Ok true → length volume.new.log ≤ length volume.old.log → (k : ℕ) → k < length volume.new.plan.clients → is_done_in (1 + k) volume.new ≡ true }
    ensures full { result ≡ Ok false → length volume.new.log ≡ volume.new.plan.turns }
{
    volume.every_line();
    let clients = volume.plan().clients.len() as u16;
    for i in 0..clients {
        if !take_turn(volume, ActorId(FIRST_CLIENT + i), crew, rules)? {
            return Ok(false);
        }
    }
    Ok(true)
}

/// A turn of the crawler and one of each worker. It answers whether the log had room.
fn take_healers<F: Fn(&[Candidate]) -> usize, G: Fn(&[Candidate]) -> usize>(
    volume: &mut Volume,
    crew: &mut Crew,
    rules: &Rules<F, G>,
) -> Result<bool, NoMemory>
    requires rule { IsRule F.Fn rules.now.heal }
    requires read_rule { IsRule G.Fn rules.now.read }
    requires crew { IsCrew crew.old volume.old }
    ensures crew { IsCrew crew.new volume.new }
    ensures leads { Leads volume.old volume.new }
    ensures still { result ≡ Ok true → length volume.new.log ≤ length volume.old.log → IsStill volume.old crew.old volume.new crew.new }
    ensures done { result ≡ Ok true → length volume.new.log ≤ length volume.old.log → (k : ℕ) → k < 3 → is_done_in (17 + k) volume.new ≡ true }
    ensures none { result ≡ Ok true → length volume.new.log ≤ length volume.old.log → TakesNone 18 volume.new crew.new }
    ensures full { result ≡ Ok false → length volume.new.log ≡ volume.new.plan.turns }
{
    if !take_turn(volume, ActorId(FIRST_HEALER), crew, rules)? {
        return Ok(false);
    }
    if !take_task(volume, ActorId(SECOND), crew, rules)? {
        return Ok(false);
    }
    take_task(volume, ActorId(THIRD), crew, rules)
}

/// A turn of each actor, and the events that are due then. It answers whether the log had room.
fn take_pass<F: Fn(&[Candidate]) -> usize, G: Fn(&[Candidate]) -> usize>(
    volume: &mut Volume,
    crew: &mut Crew,
    rules: &Rules<F, G>,
) -> Result<bool, NoMemory>
    requires rule { IsRule F.Fn rules.now.heal }
    requires read_rule { IsRule G.Fn rules.now.read }
    requires crew { IsCrew crew.old volume.old }
    ensures crew { IsCrew crew.new volume.new }
    ensures leads { Leads volume.old volume.new }
    ensures rest { result ≡ Ok true → length volume.new.log ≤ length volume.old.log → IsAtRest volume.new crew.new }
    ensures full { result ≡ Ok false → length volume.new.log ≡ volume.new.plan.turns }
{
    if !take_clients(volume, crew, rules)? {
        return Ok(false);
    }
    if !take_healers(volume, crew, rules)? {
        return Ok(false);
    }
    come(volume, crew)?;
    Ok(true)
}

/// Pass after pass, until every actor is done and every item was given, or the log is full. Each pass but the last adds a line.
pub(crate) fn all_passes<F: Fn(&[Candidate]) -> usize, G: Fn(&[Candidate]) -> usize>(
    volume: &mut Volume,
    crew: &mut Crew,
    rules: &Rules<F, G>,
) -> Result<(), NoMemory>
    requires rule { IsRule F.Fn rules.now.heal }
    requires read_rule { IsRule G.Fn rules.now.read }
    requires crew { IsCrew crew.old volume.old }
    ensures crew { IsCrew crew.new volume.new }
    ensures leads { Leads volume.old volume.new }
    ensures ok { OnOk result ((length volume.new.log ≡ volume.new.plan.turns) ⊎ IsAtRest volume.new crew.new) }
{
    loop {
        let before = volume.len();
        if !take_pass(volume, crew, rules)? {
            return Ok(());
        }
        volume.every_line();
        if volume.len() == before {
            return Ok(());
        }
    }
}
