//! The queue of tasks and its three passes.
ghost use Rattle.std.specs.Prelude.{◌≡◌, ◌<◌, ◌≤◌, ◌+◌, ◌++◌, ◌∷◌, [], ℕ, Contains, IfOk, IfSome, None, Some, false, length, true};
ghost use Rattle.crossbeam_queue.specs.Passes.{IsPassOf, IsSamePass, view};
ghost use Rattle.afr_tasks.specs.Balance.{hand, weigh};
ghost use Rattle.afr_tasks.specs.Exchange.{Exchange, queued_in, with_taken};
ghost use Rattle.afr_tasks.specs.declared.rule.Task.{Task};

use crate::rule::{Cut, Hand, Known, Puts, Queue, Spare, Takes, Task, Total};
use afr_base::NoMemory;
use crossbeam_queue::Pass;
use std::alloc::Global;
use std::marker::Model;
use std::mem;

/// How many tasks may wait to be taken.
pub const MOST_TASKS: usize = 64;

/// Who takes tasks: the second and the third healer of a plan that is crawled.
#[derive(Clone, Copy, Debug, PartialEq, Eq)]
pub enum Worker {
    Second,
    Third,
}

/// What was put, in its order, and what each worker has taken. At most 64 tasks wait.
#[derive(Drop)]
pub struct Tasks {
    queue: Queue,
    crawler: Pass<Task, Hand>,
    second: Pass<Task, Hand>,
    third: Pass<Task, Hand>,
    /// How many tasks wait to be taken.
    queued: usize,
}

impl Model for Tasks {
    ghost use Rattle.afr_tasks.specs.Exchange.{Exchange};
    ghost use Rattle.afr_tasks.specs.Parts.{AreParts, exchange_of};

    ghost Value = { Exchange };

    ghost view = { λ t. exchange_of t.crawler t.second t.third };

    ghost invariant = { λ t. AreParts t.queue t.crawler t.second t.third t.queued };
}

/// A worker's pass takes the task that waits longest, and the crawler's, which knows all that was put, tells that it was.
fn take_as(
    queue: &Queue,
    crawler: &mut Pass<Task, Hand>,
    worker: &mut Pass<Task, Hand>,
    queued: &mut usize,
) -> Option<Task>
    requires some { 0 < queued.old }
    requires crawler { IsPassOf queue.now crawler.old × (view crawler.old ≡ hand 3 (view crawler.old).put []) }
    requires worker { IsPassOf queue.now worker.old × (view worker.old ≡ hand 1 [] (view worker.old).taken) }
    ensures passes { IsPassOf queue.now crawler.new × IsPassOf queue.now worker.new }
    ensures crawler { view crawler.new ≡ view crawler.old }
    ensures less { IfSome result (λ task. queued.new + 1 ≡ queued.old) }
    ensures some { IfSome result (λ task. view worker.new ≡ hand 1 [] ((view worker.old).taken ++ task ∷ [])) }
    ensures known { IfSome result (λ task. Contains (view crawler.old).put task) }
    ensures none { result ≡ None → (view worker.new ≡ view worker.old) × (queued.new ≡ queued.old) }
{
    let Some(task) = queue.try_pop_as::<Takes>(worker) else {
        return None;
    };
    tell(queue, crawler, worker);
    *queued -= 1;
    Some(task)
}

/// What a worker's pass has taken was put, which the crawler's pass knows: for a moment it has the part of the worker's.
fn tell(queue: &Queue, crawler: &mut Pass<Task, Hand>, worker: &mut Pass<Task, Hand>)
    requires crawler { IsPassOf queue.now crawler.old × (view crawler.old ≡ hand 3 (view crawler.old).put []) }
    requires worker { IsPassOf queue.now worker.old × (view worker.old ≡ hand 1 [] (view worker.old).taken) }
    ensures passes { IsPassOf queue.now crawler.new × IsPassOf queue.now worker.new }
    ensures crawler { view crawler.new ≡ view crawler.old }
    ensures worker { view worker.new ≡ view worker.old }
    ensures known { (h : Task → ℕ) → weigh h (view worker.old).taken ≤ weigh h (view crawler.old).put }
{
    let spare = queue.another::<Spare>(crawler);
    let whole = mem::replace(worker, spare);
    queue.absorb::<Cut>(crawler, whole);
    queue.learn_as::<Known>(crawler);
    *worker = queue.another::<Cut>(crawler);
}

impl Tasks {
    /// No task was put.
    pub fn empty(alloc: Global) -> Result<Tasks, NoMemory>
        ensures { IfOk result (λ t. t ≡ record { put = []; second = []; third = [] }) }
    {
        let Ok((queue, mut crawler)) = Queue::ruled(alloc, MOST_TASKS) else {
            return Err(NoMemory);
        };
        let second = queue.another::<Cut>(&mut crawler);
        let third = queue.another::<Cut>(&mut crawler);
        Ok(Tasks {
            queue,
            crawler,
            second,
            third,
            queued: 0,
        })
    }

    /// How many tasks wait to be taken.
    pub fn queued(&self) -> usize
        ensures { result ≡ queued_in self.now }
    {
        self.queued
    }

    /// Puts a task behind all others, and answers whether there was room.
    pub fn put(&mut self, task: Task) -> bool
        ensures put { result ≡ true → self.new ≡ record self.old { put = self.old.put ++ task ∷ [] } }
        ensures refused { result ≡ false → self.new ≡ self.old }
        ensures full { 64 ≤ queued_in self.old → result ≡ false }
    {
        if self.queued >= MOST_TASKS {
            return false;
        }
        match self.queue.try_push_as::<Puts>(&mut self.crawler, task) {
            Ok(()) => {
                self.queued += 1;
                true
            }
            Err(_) => false,
        }
    }

    /// The worker takes the task that waits longest.
    pub fn take(&mut self, worker: Worker) -> Option<Task>
        ensures some { (task : Task) → result ≡ Some task → self.new ≡ with_taken worker task self.old }
        ensures known { IfSome result (λ task. Contains self.old.put task) }
        ensures none { result ≡ None → self.new ≡ self.old }
        ensures empty { queued_in self.old ≡ 0 → result ≡ None }
    {
        if self.queued == 0 {
            return None;
        }
        let Tasks {
            queue,
            crawler,
            second,
            third,
            queued,
        } = self;
        match worker {
            Worker::Second => take_as(queue, crawler, second, queued),
            Worker::Third => take_as(queue, crawler, third, queued),
        }
    }

    /// Where none waits, the workers have taken each task as often as it was put, however the tasks are weighed.
    pub fn all_are_taken(self)
        requires { queued_in self ≡ 0 }
        ensures { (h : Task → ℕ) → weigh h self.put ≡ weigh h self.second + weigh h self.third }
    {
        let Tasks {
            queue,
            mut crawler,
            second,
            third,
            ..
        } = self;
        queue.absorb::<Cut>(&mut crawler, second);
        queue.absorb::<Cut>(&mut crawler, third);
        queue.learn_as::<Total>(&mut crawler);
    }
}
