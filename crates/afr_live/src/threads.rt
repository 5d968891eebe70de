//! A thread for each actor, and what is done once they have ended.
ghost use Rattle.std.specs.Prelude.{◌≡◌, ◌≤◌, ◌<◌, ◌+◌, IfOk, [], false, length};
ghost use Rattle.afr_law_bound.specs.Ends.Law.{AreEager};
ghost use Rattle.afr_live.specs.Ending.{EndsInAnyOrder};
ghost use Rattle.afr_live.specs.Ends.{works_ended};
ghost use Rattle.afr_live.specs.Handed.{volume_of};
ghost use Rattle.afr_model.specs.Actors.{IsActor};
ghost use Rattle.afr_model.specs.Complete.{IsComplete};
ghost use Rattle.afr_rule.specs.Choosing.{IsRule};
ghost use Rattle.afr_volume.specs.Right.{IsRight};

use crate::rest::take_rest;
use crate::shared::{After, Shared};
use crate::tally::{EndedWorks, Handed, Run};
use afr_base::{ActorId, FIRST_CLIENT, FIRST_HEALER, NoMemory};
use afr_crowd::Gate;
use afr_law_bound::an_ordered_run_ends;
use afr_rule::{Candidate, Rules};
use afr_volume::Volume;
use std::alloc::Global;
use std::marker::Brand;
use std::sync::ledger::Blank;
use std::sync::{Condvar, Mutex, Wait};
use std::thread;
use std::thread::{JoinHandle, Scope, Threads};

/// Runs the plan that the volume was set up with by threads, one for each actor. The volume lies under a lock: a thread
/// passes the gate, takes the lock, makes the events that are due, takes one turn of its actor, and lets go. One that is
/// told Held on a transaction's lock waits for a line that isn't told so. The plan's orders are passed over. Where no
/// thread can be made for an actor, none waits from then on; the turns that are left are taken here, one actor after the
/// other, once all threads have ended. It returns if the threads do. Beside the volume stands how many commands and
/// rounds have ended, which each thread has counted for its actor. Want of memory of any turn ends every thread. Nobody
/// asks twice running for a lock that another holds, so with turns enough the log isn't full before every actor is done.
pub fn live<
    R: Threads + Wait + Sync,
    F: Fn(&[Candidate]) -> usize + Sync,
    G: Fn(&[Candidate]) -> usize + Sync,
    H: Gate + Sync,
>(
    rt: &R,
    alloc: Global,
    volume: Volume,
    rules: &Rules<F, G>,
    gate: &H,
) -> Result<(Volume, u64), (Volume, NoMemory)>
    requires rule { IsRule F.Fn rules.now.heal }
    requires read_rule { IsRule G.Fn rules.now.read }
    requires fresh { volume.log ≡ [] }
    requires plain { volume.crawl ≡ false }
    ensures plan { (volume_of result).plan ≡ volume.plan }
    ensures plain { (volume_of result).crawl ≡ false }
    ensures complete { IfOk result (λ ran. IsComplete ran.0.plan ran.0.log) }
    ensures count { IfOk result (λ ran. ran.1 ≡ works_ended ran.0.log) }
    ensures ends { IfOk result (λ ran. EndsInAnyOrder ran.0.plan ran.0.log) }
    ensures eager { AreEager (volume_of result).log }
    ensures right { IsRight (volume_of result).plan (volume_of result).log }
{
    volume.every_line();
    let actors = (volume.plan().clients.len() + volume.plan().healers.len()) as u64;
    match live_as::<Brand, R, F, G, H>(rt, alloc, Blank::new(actors + 1), volume, rules, gate) {
        Ok((volume, ended)) => {
            volume.every_line();
            an_ordered_run_ends();
            Ok((volume, ended))
        }
        Err((volume, stop)) => {
            volume.every_line();
            Err((volume, stop))
        }
    }
}

/// The run that `J` names.
fn live_as<
    J: Run + Send + Sync,
    R: Threads + Wait + Sync,
    F: Fn(&[Candidate]) -> usize + Sync,
    G: Fn(&[Candidate]) -> usize + Sync,
    H: Gate + Sync,
>(
    rt: &R,
    alloc: Global,
    blank: Blank,
    volume: Volume,
    rules: &Rules<F, G>,
    gate: &H,
) -> Result<(Volume, u64), (Volume, NoMemory)>
    requires name { blank.name ≡ J.name }
    requires parts { blank.parts ≡ J.parts }
    requires plan { volume.plan ≡ J.plan }
    requires one_more { blank.parts ≡ length volume.plan.clients + length volume.plan.healers + 1 }
    requires rule { IsRule F.Fn rules.now.heal }
    requires read_rule { IsRule G.Fn rules.now.read }
    requires fresh { volume.log ≡ [] }
    requires plain { volume.crawl ≡ false }
    ensures plan { (volume_of result).plan ≡ volume.plan }
    ensures plain { (volume_of result).crawl ≡ false }
    ensures complete { IfOk result (λ ran. IsComplete ran.0.plan ran.0.log) }
    ensures count { IfOk result (λ ran. ran.1 ≡ works_ended ran.0.log) }
    ensures eager { AreEager (volume_of result).log }
{
    volume.every_line();
    let clients = volume.plan().clients.len() as u16;
    let actors = clients + volume.plan().healers.len() as u16;
    let Ok(running) = Vec::with_capacity(alloc, actors as usize) else {
        return Err((volume, NoMemory));
    };
    let (book, share) = blank.open::<J>();
    let tally = EndedWorks::new(share);
    let shared = Mutex::new(Shared::new(volume, book));
    let moved = Condvar::new();
    let (tally, running) = run_threads(
        rt, rt, &shared, &moved, rules, gate, clients, actors, tally, running,
    );
    finish(rt, shared.into_inner(), rules, tally, running)
}

/// Starts the threads, and returns when all have ended. The handle comes twice, since the scope of the threads and what
/// they run borrow it apart.
fn run_threads<
    'x,
    J: Run + Send + Sync,
    R: Threads + Wait + Sync,
    F: Fn(&[Candidate]) -> usize + Sync,
    G: Fn(&[Candidate]) -> usize + Sync,
    H: Gate + Sync,
>(
    here: &R,
    rt: &'x R,
    shared: &'x Mutex<Shared<J>>,
    moved: &'x Condvar,
    rules: &'x Rules<F, G>,
    gate: &'x H,
    clients: u16,
    actors: u16,
    tally: EndedWorks<J>,
    running: Vec<JoinHandle<Handed<J>>>,
) -> (EndedWorks<J>, Vec<JoinHandle<Handed<J>>>)
    requires rule { IsRule F.Fn rules.now.heal }
    requires read_rule { IsRule G.Fn rules.now.read }
    requires clients { clients ≡ length J.plan.clients }
    requires actors { actors ≡ clients + length J.plan.healers }
    requires few { (clients ≤ 16) × (actors ≤ 19) }
    requires parts { tally.share.parts ≡ actors + 1 }
    requires empty { running.len ≡ 0 }
    requires fits { actors ≤ running.cap }
    ensures own { 0 < result.0.share.parts }
    ensures parts { result.0.share.parts + result.1.len ≡ actors + 1 }
{
    thread::scope(
        thread::scope_env(),
        here,
        move |scope| -> (EndedWorks<J>, Vec<JoinHandle<Handed<J>>>)
            requires rule { IsRule F.Fn rules.now.heal }
            requires read_rule { IsRule G.Fn rules.now.read }
            requires clients { clients ≡ length J.plan.clients }
            requires actors { actors ≡ clients + length J.plan.healers }
            requires few { (clients ≤ 16) × (actors ≤ 19) }
            requires parts { tally.share.parts ≡ actors + 1 }
            requires empty { running.len ≡ 0 }
            requires fits { actors ≤ running.cap }
            ensures own { 0 < result.0.share.parts }
            ensures parts { result.0.share.parts + result.1.len ≡ actors + 1 }
        {
            start_all(
                scope, rt, shared, moved, rules, gate, clients, actors, tally, running,
            )
        },
    )
}

/// Starts a thread for each actor. Of one for which none can be made the share is taken back, and its turns are left.
fn start_all<
    's,
    E,
    J: Run + Send + Sync,
    R: Threads + Wait + Sync,
    F: Fn(&[Candidate]) -> usize + Sync,
    G: Fn(&[Candidate]) -> usize + Sync,
    H: Gate + Sync,
>(
    scope: &Scope<'s, E>,
    rt: &'s R,
    shared: &'s Mutex<Shared<J>>,
    moved: &'s Condvar,
    rules: &'s Rules<F, G>,
    gate: &'s H,
    clients: u16,
    actors: u16,
    tally: EndedWorks<J>,
    running: Vec<JoinHandle<Handed<J>>>,
) -> (EndedWorks<J>, Vec<JoinHandle<Handed<J>>>)
    requires rule { IsRule F.Fn rules.now.heal }
    requires read_rule { IsRule G.Fn rules.now.read }
    requires clients { clients ≡ length J.plan.clients }
    requires actors { actors ≡ clients + length J.plan.healers }
    requires few { (clients ≤ 16) × (actors ≤ 19) }
    requires parts { tally.share.parts ≡ actors + 1 }
    requires empty { running.len ≡ 0 }
    requires fits { actors ≤ running.cap }
    ensures own { 0 < result.0.share.parts }
    ensures parts { result.0.share.parts + result.1.len ≡ actors + 1 }
{
    let mut tally = tally;
    let mut running = running;
    for i in 0..actors {
        let mine = tally.split();
        let a = actor_at::<J>(i, clients);
        let turns = move || -> Handed<J>
            requires rule { IsRule F.Fn rules.now.heal }
            requires read_rule { IsRule G.Fn rules.now.read }
            requires actor { IsActor J.plan a.0 }
            requires one { mine.share.parts ≡ 1 }
        { take_turns(rt, shared, moved, a, rules, gate, mine) };
        match scope.spawn(turns) {
            Ok(thread) => {
                let Ok(()) = running.push(thread) else {
                    unreachable!()
                };
            }
            Err(refused) => {
                shared.lock(rt).note_unstarted(a);
                moved.notify_all();
                let handed = (refused.value)();
                shared.lock(rt).gather(&mut tally, handed);
            }
        }
    }
    (tally, running)
}

/// The actor of the thread at a place: clients come first, then healers.
fn actor_at<J: Run>(i: u16, clients: u16) -> ActorId
    requires clients { clients ≡ length J.plan.clients }
    requires within { i < clients + length J.plan.healers }
    requires few { clients ≤ 16 }
    requires fits { i < 32 }
    ensures { IsActor J.plan result.0 }
{
    if i < clients {
        ActorId(FIRST_CLIENT + i)
    } else {
        ActorId(FIRST_HEALER + (i - clients))
    }
}

/// What the thread of an actor does. It takes no turn where none could be made for it, and this is called in its place.
fn take_turns<J: Run, R: Wait, F: Fn(&[Candidate]) -> usize, G: Fn(&[Candidate]) -> usize, H: Gate>(
    rt: &R,
    shared: &Mutex<Shared<J>>,
    moved: &Condvar,
    a: ActorId,
    rules: &Rules<F, G>,
    gate: &H,
    mine: EndedWorks<J>,
) -> Handed<J>
    requires rule { IsRule F.Fn rules.now.heal }
    requires read_rule { IsRule G.Fn rules.now.read }
    requires actor { IsActor J.plan a.0 }
    requires one { mine.share.parts ≡ 1 }
{
    let mut mine = mine;
    if shared.lock(rt).is_unstarted(a) {
        return Handed::new(mine);
    }
    for turn in 1..u64::MAX {
        gate.pass(a, turn);
        if !take_turn(rt, shared, moved, a, rules, &mut mine) {
            break;
        }
    }
    Handed::new(mine)
}

/// One turn under the lock, and the wait after one that was told Held. It answers whether the thread goes on.
fn take_turn<J: Run, R: Wait, F: Fn(&[Candidate]) -> usize, G: Fn(&[Candidate]) -> usize>(
    rt: &R,
    shared: &Mutex<Shared<J>>,
    moved: &Condvar,
    a: ActorId,
    rules: &Rules<F, G>,
    mine: &mut EndedWorks<J>,
) -> bool
    requires rule { IsRule F.Fn rules.now.heal }
    requires read_rule { IsRule G.Fn rules.now.read }
    requires actor { IsActor J.plan a.0 }
    requires backed { 0 < mine.old.share.parts }
    ensures { mine.new.share.parts ≡ mine.old.share.parts }
{
    let mut guard = shared.lock(rt);
    let state = &mut *guard;
    let before = state.volume.len();
    let after = state.step(a, rules, mine);
    if state.wakes(before) {
        moved.notify_all();
    }
    match after {
        After::Goes => true,
        After::Ends => false,
        After::Waits => {
            let woken = moved.wait_while(rt, guard, |state| state.sleeps(a));
            !woken.waits(a)
        }
    }
}

/// Joins the threads, and takes the turns that are left.
fn finish<J: Run, R: Threads, F: Fn(&[Candidate]) -> usize, G: Fn(&[Candidate]) -> usize>(
    rt: &R,
    state: Shared<J>,
    rules: &Rules<F, G>,
    tally: EndedWorks<J>,
    running: Vec<JoinHandle<Handed<J>>>,
) -> Result<(Volume, u64), (Volume, NoMemory)>
    requires rule { IsRule F.Fn rules.now.heal }
    requires read_rule { IsRule G.Fn rules.now.read }
    requires own { 0 < tally.share.parts }
    requires parts { tally.share.parts + running.len ≡ J.parts }
    ensures plan { (volume_of result).plan ≡ J.plan }
    ensures plain { (volume_of result).crawl ≡ false }
    ensures complete { IfOk result (λ ran. IsComplete ran.0.plan ran.0.log) }
    ensures count { IfOk result (λ ran. ran.1 ≡ works_ended ran.0.log) }
    ensures eager { AreEager (volume_of result).log }
{
    let mut state = state;
    let mut tally = tally;
    let mut running = running;
    while let Some(thread) = running.pop() {
        let handed = thread.join(rt);
        state.gather(&mut tally, handed);
    }
    if state.no_memory || take_rest(&mut state, rules, &mut tally).is_err() {
        let Shared { volume, .. } = state;
        return Err((volume, NoMemory));
    }
    let ended = state.sum(&mut tally);
    let Shared { volume, .. } = state;
    Ok((volume, ended))
}
