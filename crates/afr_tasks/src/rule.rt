//! The rule of the queue: what was put is what was taken and what the queue holds.
ghost use Rattle.std.specs.Prelude.{◌≡◌, ℕ, ◌+◌};

use afr_base::{Gfid, What};
use crossbeam_queue::RuledArrayQueue;
use crossbeam_queue::protocol::{Join, Lesson, Outcome, Protocol, Split};
use std::collections::LinkedList;

/// What the crawler asks of a worker.
#[derive(Clone, Copy, Debug, PartialEq, Eq)]
pub enum Task {
    /// A heal of this object.
    Heal(Gfid, What),
    /// No task comes after it.
    Stop,
}

/// What a pass has put and taken, and how many of five parts it has: who has three or more may put, and knows all that was put;
/// who has them all knows the whole. No value of it is made.
pub struct Hand {
    pub parts: u64,
    pub put: LinkedList<Task>,
    pub taken: LinkedList<Task>,
}

/// The rule over what the queue holds and what each pass knows.
pub struct Fair;

impl Protocol<Task, Hand> for Fair {
    ghost use Rattle.std.specs.Prelude.{[]};
    ghost use Rattle.afr_tasks.specs.Balance.{Balanced, hand};

    ghost holds = { Balanced };

    ghost first = { hand 5 [] [] };
}

/// One part goes to another pass, with all that was taken; and passes are put together.
pub struct Cut;

impl Split<Hand> for Cut {
    ghost use Rattle.std.specs.Prelude.{[], ◌-◌};
    ghost use Rattle.afr_tasks.specs.Balance.{hand};

    ghost left = { λ v. hand (v.parts - 1) v.put [] };

    ghost right = { λ v. hand 1 [] v.taken };
}

impl Join<Hand> for Cut {
    ghost use Rattle.std.specs.Prelude.{[], ◌+◌, ◌++◌};
    ghost use Rattle.afr_tasks.specs.Balance.{hand};

    ghost both = { λ v w. hand (v.parts + w.parts) (v.put ++ w.put) (v.taken ++ w.taken) };

    ghost spent = { hand 0 [] [] };
}

/// Another pass has no part.
pub struct Spare;

impl Split<Hand> for Spare {
    ghost use Rattle.std.specs.Prelude.{[]};
    ghost use Rattle.afr_tasks.specs.Balance.{hand};

    ghost left = { λ v. v };

    ghost right = { λ v. hand 0 [] [] };
}

/// A task was put.
pub struct Puts;

impl Outcome<Task, Hand> for Puts {
    ghost use Rattle.std.specs.Prelude.{◌≡◌, [], ◌∷◌, ◌++◌};
    ghost use Rattle.afr_tasks.specs.Balance.{hand};

    ghost then = { λ v x w. w ≡ hand v.parts (v.put ++ x ∷ []) v.taken };
}

/// A task was taken.
pub struct Takes;

impl Outcome<Task, Hand> for Takes {
    ghost use Rattle.std.specs.Prelude.{◌≡◌, [], ◌∷◌, ◌++◌};
    ghost use Rattle.afr_tasks.specs.Balance.{hand};

    ghost then = { λ v x w. w ≡ hand v.parts v.put (v.taken ++ x ∷ []) };
}

/// What the pass has taken was put.
pub struct Known;

impl Lesson<Task, Hand> for Known {
    ghost use Rattle.std.specs.Prelude.{◌≤◌, ℕ};
    ghost use Rattle.afr_tasks.specs.Balance.{weigh};
    ghost use Rattle.afr_tasks.specs.declared.rule.Task.{Task};

    ghost fact = { λ v items. (h : Task → ℕ) → weigh h v.taken ≤ weigh h v.put };
}

/// The whole is known.
pub struct Total;

impl Lesson<Task, Hand> for Total {
    ghost use Rattle.std.specs.Prelude.{◌≡◌, ℕ, ◌+◌};
    ghost use Rattle.afr_tasks.specs.Balance.{weigh};
    ghost use Rattle.afr_tasks.specs.declared.rule.Task.{Task};

    ghost fact = { λ v items. (h : Task → ℕ) → weigh h v.put ≡ weigh h v.taken + weigh h items };
}

/// A queue under the rule.
pub type Queue = RuledArrayQueue<Task, Hand, Fair>;
