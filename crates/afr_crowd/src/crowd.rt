//! What lies under the lock.
ghost use Rattle.afr_rule.specs.Choosing.{IsRule};

use afr_base::ActorId;
use afr_rule::{Candidate, Rules};

/// What a turn has come to.
#[derive(Clone, Copy, Debug)]
pub struct Step {
    /// The thread takes its next turn; else it ends.
    pub goes: bool,
    /// A thread that sleeps may go on after it.
    pub wakes: bool,
}

/// What lies under the lock. What holds of it whenever the lock is free is said by its type, and by no clause.
pub trait Crowd {
    ghost use Rattle.std.specs.Prelude.{ℕ};

    /// Who takes turns.
    ghost acts: { ℕ → Type 0 };

    /// One turn of an actor.
    fn step<F: Fn(&[Candidate]) -> usize, G: Fn(&[Candidate]) -> usize>(
        &mut self,
        a: ActorId,
        rules: &Rules<F, G>,
    ) -> Step
        requires rule { IsRule F.Fn rules.now.heal }
        requires read_rule { IsRule G.Fn rules.now.read }
        requires actor { acts a.0 };

    /// Whether the actor can do nothing before another one has taken a turn.
    fn sleeps(&self, a: ActorId) -> bool;

    /// Notes that no thread can be made for an actor: from then on nobody sleeps for its sake.
    fn note_unstarted(&mut self, a: ActorId);
}
