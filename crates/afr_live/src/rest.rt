//! The turns that are left after the threads: one of each actor, again and again.
ghost use Rattle.std.specs.Prelude.{◌≡◌, ◌≤◌, ◌<◌, ◌+◌, ◌^◌, ℕ, true, false, Ok, OnOk, length};
ghost use Rattle.afr_model.specs.Actors.{IsActor};
ghost use Rattle.afr_model.specs.Complete.{IsComplete};
ghost use Rattle.afr_live.specs.Noted.{IsSettled};
ghost use Rattle.afr_volume.specs.Going.{Goes, IsIdle};
ghost use Rattle.afr_rule.specs.Choosing.{IsRule};

use crate::shared::Shared;
use crate::tally::{EndedWorks, Run};
use afr_base::{ActorId, FIRST_CLIENT, FIRST_HEALER, NoMemory};
use afr_law_bound::a_log_goes_on;
use afr_rule::{Candidate, Rules};
use afr_volume::Turned;

/// Pass after pass, until every actor is done or the log is full. An actor that was told Held is passed over until another
/// line has come. A pass that has added no line was the last one: who was passed over in it waits for somebody, and not
/// everybody who has something left to do can wait.
pub fn take_rest<J: Run, F: Fn(&[Candidate]) -> usize, G: Fn(&[Candidate]) -> usize>(
    state: &mut Shared<J>,
    rules: &Rules<F, G>,
    mine: &mut EndedWorks<J>,
) -> Result<(), NoMemory>
    requires rule { IsRule F.Fn rules.now.heal }
    requires read_rule { IsRule G.Fn rules.now.read }
    requires backed { 0 < mine.old.share.parts }
    ensures ok { OnOk result (IsComplete state.new.volume.plan state.new.volume.log) }
    ensures parts { mine.new.share.parts ≡ mine.old.share.parts }
{
    loop {
        let before = state.volume.len();
        if !take_pass(state, rules, mine)? {
            return Ok(());
        }
        state.volume.every_line();
        if state.volume.len() == before {
            return Ok(());
        }
    }
}

/// A turn of each actor, and the events that are due then. It answers whether the log had room.
fn take_pass<J: Run, F: Fn(&[Candidate]) -> usize, G: Fn(&[Candidate]) -> usize>(
    state: &mut Shared<J>,
    rules: &Rules<F, G>,
    mine: &mut EndedWorks<J>,
) -> Result<bool, NoMemory>
    requires rule { IsRule F.Fn rules.now.heal }
    requires read_rule { IsRule G.Fn rules.now.read }
    requires backed { 0 < mine.old.share.parts }
    ensures goes { Goes state.old.volume state.new.volume }
    ensures full { result ≡ Ok false → length state.new.volume.log ≡ state.new.volume.plan.turns }
    ensures idle { result ≡ Ok true → length state.new.volume.log ≤ length state.old.volume.log → IsIdle state.new.volume }
    ensures parts { mine.new.share.parts ≡ mine.old.share.parts }
{
    state.volume.every_line();
    let clients = state.volume.plan().clients.len() as u16;
    let healers = state.volume.plan().healers.len() as u16;
    if !take_row(state, FIRST_CLIENT, clients, rules, mine)? {
        return Ok(false);
    }
    if !take_row(state, FIRST_HEALER, healers, rules, mine)? {
        return Ok(false);
    }
    state.come_due()?;
    a_log_goes_on();
    Ok(true)
}

/// A turn of each of so many actors, but for those that are passed over. It answers whether the log had room.
fn take_row<J: Run, F: Fn(&[Candidate]) -> usize, G: Fn(&[Candidate]) -> usize>(
    state: &mut Shared<J>,
    first: u16,
    count: u16,
    rules: &Rules<F, G>,
    mine: &mut EndedWorks<J>,
) -> Result<bool, NoMemory>
    requires rule { IsRule F.Fn rules.now.heal }
    requires read_rule { IsRule G.Fn rules.now.read }
    requires fits { first + count < 2 ^ 16 }
    requires actors { (k : ℕ) → k < count → IsActor J.plan (first + k) }
    requires backed { 0 < mine.old.share.parts }
    ensures goes { Goes state.old.volume state.new.volume }
    ensures full { result ≡ Ok false → length state.new.volume.log ≡ state.new.volume.plan.turns }
    ensures settled { result ≡ Ok true → length state.new.volume.log ≤ length state.old.volume.log → (k : ℕ) → k < count → IsSettled (first + k) state.new.volume }
    ensures parts { mine.new.share.parts ≡ mine.old.share.parts }
{
    for i in 0..count {
        if !ask(state, ActorId(first + i), rules, mine)? {
            return Ok(false);
        }
    }
    Ok(true)
}

/// A turn of one actor, where it isn't passed over. It answers whether the log had room.
fn ask<J: Run, F: Fn(&[Candidate]) -> usize, G: Fn(&[Candidate]) -> usize>(
    state: &mut Shared<J>,
    a: ActorId,
    rules: &Rules<F, G>,
    mine: &mut EndedWorks<J>,
) -> Result<bool, NoMemory>
    requires rule { IsRule F.Fn rules.now.heal }
    requires read_rule { IsRule G.Fn rules.now.read }
    requires actor { IsActor J.plan a.0 }
    requires backed { 0 < mine.old.share.parts }
    ensures goes { Goes state.old.volume state.new.volume }
    ensures full { result ≡ Ok false → length state.new.volume.log ≡ state.new.volume.plan.turns }
    ensures settled { result ≡ Ok true → length state.new.volume.log ≤ length state.old.volume.log → IsSettled a.0 state.new.volume }
    ensures parts { mine.new.share.parts ≡ mine.old.share.parts }
{
    if state.is_held(a) {
        return Ok(true);
    }
    match state.take_turn(a, rules, mine)? {
        Turned::Full => Ok(false),
        _ => Ok(true),
    }
}
