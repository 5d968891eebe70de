//! A thread for each actor, over a lock round what they share.
ghost use Rattle.std.specs.Prelude.{◌≡◌, ℕ, Some, slice_get};
ghost use Rattle.afr_base.specs.declared.ids.ActorId.{ActorId};
ghost use Rattle.afr_rule.specs.Choosing.{IsRule};

use crate::crowd::Crowd;
use crate::gate::Gate;
use afr_base::ActorId;
use afr_rule::{Candidate, Rules};
use std::sync::{Condvar, Mutex, Wait};
use std::thread;
use std::thread::{Scope, Threads};

/// A thread for each actor: it passes the gate, takes the lock, sleeps as long as its actor can do nothing, takes one turn of
/// it, and lets go. Where no thread can be made for an actor, that is noted, and its turns are left. What lies under the lock is
/// handed back once all threads have ended; it returns if they do.
pub fn run_crowd<
    R: Threads + Wait + Sync,
    F: Fn(&[Candidate]) -> usize + Sync,
    G: Fn(&[Candidate]) -> usize + Sync,
    S: Crowd + Send + Drop,
    H: Gate + Sync,
>(rt: &R, crowd: S, actors: &[ActorId], rules: &Rules<F, G>, gate: &H) -> S
    requires rule { IsRule F.Fn rules.now.heal }
    requires read_rule { IsRule G.Fn rules.now.read }
    requires actors { (i : ℕ) (a : ActorId) → slice_get actors.now i ≡ Some a → S.acts a.0 }
{
    let shared = Mutex::new(crowd);
    let moved = Condvar::new();
    run_threads(rt, rt, &shared, &moved, actors, rules, gate);
    shared.into_inner()
}

/// Starts the threads, and returns when all have ended. The handle comes twice, since the scope of the threads and what
/// they run borrow it apart.
fn run_threads<
    'x,
    R: Threads + Wait + Sync,
    F: Fn(&[Candidate]) -> usize + Sync,
    G: Fn(&[Candidate]) -> usize + Sync,
    S: Crowd + Send + Drop,
    H: Gate + Sync,
>(
    here: &R,
    rt: &'x R,
    shared: &'x Mutex<S>,
    moved: &'x Condvar,
    actors: &'x [ActorId],
    rules: &'x Rules<F, G>,
    gate: &'x H,
)
    requires rule { IsRule F.Fn rules.now.heal }
    requires read_rule { IsRule G.Fn rules.now.read }
    requires actors { (i : ℕ) (a : ActorId) → slice_get actors.now i ≡ Some a → S.acts a.0 }
{
    thread::scope(
        thread::scope_env(),
        here,
        move |scope|
            requires rule { IsRule F.Fn rules.now.heal }
            requires read_rule { IsRule G.Fn rules.now.read }
            requires actors { (i : ℕ) (a : ActorId) → slice_get actors.now i ≡ Some a → S.acts a.0 }
        { start_all(scope, rt, shared, moved, actors, rules, gate) },
    );
}

/// Starts a thread for each actor.
fn start_all<
    's,
    E,
    R: Threads + Wait + Sync,
    F: Fn(&[Candidate]) -> usize + Sync,
    G: Fn(&[Candidate]) -> usize + Sync,
    S: Crowd + Send + Drop,
    H: Gate + Sync,
>(
    scope: &Scope<'s, E>,
    rt: &'s R,
    shared: &'s Mutex<S>,
    moved: &'s Condvar,
    actors: &[ActorId],
    rules: &'s Rules<F, G>,
    gate: &'s H,
)
    requires rule { IsRule F.Fn rules.now.heal }
    requires read_rule { IsRule G.Fn rules.now.read }
    requires actors { (i : ℕ) (a : ActorId) → slice_get actors.now i ≡ Some a → S.acts a.0 }
{
    for a in actors {
        let a = *a;
        let turns = move ||
            requires rule { IsRule F.Fn rules.now.heal }
            requires read_rule { IsRule G.Fn rules.now.read }
            requires actor { S.acts a.0 }
        { take_turns(rt, shared, moved, a, rules, gate) };
        if scope.spawn(turns).is_err() {
            shared.lock(rt).note_unstarted(a);
            moved.notify_all();
        }
    }
}

/// What the thread of an actor does.
fn take_turns<
    R: Wait,
    F: Fn(&[Candidate]) -> usize,
    G: Fn(&[Candidate]) -> usize,
    S: Crowd,
    H: Gate,
>(rt: &R, shared: &Mutex<S>, moved: &Condvar, a: ActorId, rules: &Rules<F, G>, gate: &H)
    requires rule { IsRule F.Fn rules.now.heal }
    requires read_rule { IsRule G.Fn rules.now.read }
    requires actor { S.acts a.0 }
{
    for turn in 1..u64::MAX {
        gate.pass(a, turn);
        if !take_turn(rt, shared, moved, a, rules) {
            break;
        }
    }
}

/// One turn under the lock, once the actor can do something. It answers whether the thread goes on.
fn take_turn<R: Wait, F: Fn(&[Candidate]) -> usize, G: Fn(&[Candidate]) -> usize, S: Crowd>(
    rt: &R,
    shared: &Mutex<S>,
    moved: &Condvar,
    a: ActorId,
    rules: &Rules<F, G>,
) -> bool
    requires rule { IsRule F.Fn rules.now.heal }
    requires read_rule { IsRule G.Fn rules.now.read }
    requires actor { S.acts a.0 }
{
    let mut guard = moved.wait_while(rt, shared.lock(rt), |crowd| crowd.sleeps(a));
    let crowd = &mut *guard;
    let step = crowd.step(a, rules);
    if step.wakes {
        moved.notify_all();
    }
    step.goes
}
