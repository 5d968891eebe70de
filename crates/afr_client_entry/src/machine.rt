//! The machine of one command on a name: what it asks next, and what it makes of the answers.
ghost use Rattle.std.specs.Prelude.{None, Ok, Some, ◌≡◌, ℕ, ◌<◌, ◌≤◌, IfOk, false, true};
ghost use Rattle.afr_client_entry.specs.Entry.{CarriesNext, IsEntry, answered, choices_at, entry_from, is_over, next_of, next_under, reads_name, register_of, stage_begun};
ghost use Rattle.afr_rule.specs.Choosing.{IsRule};
ghost use Rattle.afr_client_walk.specs.Choosing.{RuleAnswers, reader_of};
ghost use Rattle.afr_client_transaction.specs.Progress.{is_beginning};
ghost use Rattle.afr_discipline.specs.Free.{Allows, is_ask};

use crate::job::EntryJob;
use crate::stage::{EntryStage, Found, left_by, reads_name, stage_begun, stage_heard};
use crate::under::{begins_under, end_under};
use afr_base::{BrickId, NameId, NoMemory, Shape};
use afr_client_transaction::Transaction;
use afr_client_walk::Walk;
use afr_discipline::Register;
use afr_lines::{Answer, KeptReply, Next, Reply, Request};
use afr_object::{Change, Load};
use afr_rule::{Candidate, ReadRule};
use std::alloc::Global;
use std::marker::Model;

/// A command on a name of a directory.
#[derive(Drop)]
pub struct EntryMachine {
    alloc: Global,
    walk: Walk,
    job: EntryJob,
    stage: EntryStage,
}

impl Model for EntryMachine {
    ghost use Rattle.afr_client_entry.specs.Entry.{Entering, IsEntry};

    ghost Value = { Entering };

    ghost view = { λ m. record { walk = m.walk; job = m.job; stage = m.stage } };

    ghost invariant = { λ m. IsEntry m.walk m.job m.stage };
}

impl EntryMachine {
    /// The path leads to the directory of the job's name.
    pub fn new(
        alloc: Global,
        shape: Shape,
        path: &[NameId],
        job: EntryJob,
    ) -> Result<EntryMachine, NoMemory>
        requires few { shape.n ≤ 5 }
        requires some { 0 < shape.n }
        ensures value { IfOk result (λ machine. machine ≡ entry_from shape path.now job) }
    {
        let walk = Walk::new(alloc, shape, path)?;
        let stage = left_by(job, &walk);
        Ok(EntryMachine {
            alloc,
            walk,
            job,
            stage,
        })
    }

    /// Whom the next line asks, where it is a request; that is written where it is to stand, for it is large.
    pub fn asks(&self, request: &mut Request) -> Option<BrickId>
        ensures some { (b : BrickId) → result ≡ Some b → (at : ℕ) → next_of at self.now ≡ Next.Ask b request.new }
        ensures none { result ≡ None → (at : ℕ) → is_ask (next_of at self.now) ≡ false }
        ensures allowed { (b : BrickId) → result ≡ Some b → Allows (register_of self.now) (Next.Ask b request.new) }
    {
        self.stays_sound();
        self.ask(request)
    }

    /// The change, where the operation is asked for next.
    pub fn load(&self) -> Load<'_>
        ensures { CarriesNext self.now.stage result }
    {
        match &self.stage {
            EntryStage::Changing(transaction, _) => transaction.load(),
            EntryStage::Removes(removal) => removal.load(),
            _ => Load::Nothing,
        }
    }

    /// This request was written, and the brick has answered. Once all copies of a directory were looked at the rule picks the
    /// one that is read; this is what it has picked now.
    pub fn hear<G: Fn(&[Candidate]) -> usize>(
        &mut self,
        brick: BrickId,
        request: &Request,
        answer: &Answer,
        at: u32,
        rule: &ReadRule<G>,
    ) -> Option<BrickId>
        requires rule { IsRule G.Fn rule.now }
        requires asked { next_of at self.old ≡ Next.Ask brick request.now }
        ensures picked { RuleAnswers G.Fn rule.now (choices_at self.old.stage answer.now at self.old.walk) result }
        ensures value { self.new ≡ answered (reader_of result) answer.now at self.old }
    {
        stage_heard(
            &mut self.walk,
            self.job,
            &mut self.stage,
            brick,
            request,
            answer,
            at,
            rule,
        )
    }

    /// The change of the next line, where that is a Begin line at this position. Its copy takes memory.
    pub fn begins(&self, at: u32) -> Result<Option<Change>, NoMemory>
        ensures some { (change : Change) → result ≡ Ok (Some change) → next_of at self.now ≡ Next.Begin change }
        ensures none { result ≡ Ok None → is_ask (next_of at self.now) ≡ false → is_over self.now.stage ≡ true }
        ensures allowed { (change : Change) → result ≡ Ok (Some change) → Allows (register_of self.now) (Next.Begin change) }
    {
        self.stays_sound();
        self.change(at)
    }

    /// The Begin line was written at this position.
    pub fn begun(&mut self, at: u32)
        ensures { self.new ≡ record self.old { stage = stage_begun self.old.stage at } }
    {
        stage_begun(&mut self.stage, at);
    }

    /// The reply, where the next line is the end. Only the views of a split brain take memory.
    pub fn end(&self) -> Result<Option<Reply>, NoMemory>
        ensures some { (reply : Reply) → result ≡ Ok (Some reply) → (at : ℕ) → next_of at self.now ≡ Next.End reply }
        ensures none { result ≡ Ok None → is_over self.now.stage ≡ false }
        ensures allowed { (reply : Reply) → result ≡ Ok (Some reply) → Allows (register_of self.now) (Next.End reply) }
    {
        self.stays_sound();
        self.reply()
    }

    /// What the lines so far show.
    pub fn register(&self) -> &Register
        ensures { result.now ≡ register_of self.now }
    {
        match &self.stage {
            EntryStage::Changing(transaction, _) => transaction.register(),
            EntryStage::Removes(removal) => removal.register(),
            _ => &self.walk.register,
        }
    }

    /// What the machine keeps at every moment, for those who prove over its value.
    pub fn stays_sound(&self)
        ensures { IsEntry self.now.walk self.now.job self.now.stage }
    {
        let _ = &self.walk;
    }

    fn ask(&self, request: &mut Request) -> Option<BrickId>
        ensures some { (b : BrickId) → result ≡ Some b → (at : ℕ) → next_of at self.now ≡ Next.Ask b request.new }
        ensures none { result ≡ None → (at : ℕ) → is_ask (next_of at self.now) ≡ false }
    {
        match &self.stage {
            EntryStage::Walking => self.walk.asks(request),
            EntryStage::Changing(transaction, found) => {
                change_asks(&self.walk, self.job, transaction, *found, request)
            }
            EntryStage::Removes(removal) => removal.asks(request),
            EntryStage::Ending(_) => None,
        }
    }

    fn change(&self, at: u32) -> Result<Option<Change>, NoMemory>
        ensures some { (change : Change) → result ≡ Ok (Some change) → next_of at self.now ≡ Next.Begin change }
        ensures none { result ≡ Ok None → is_ask (next_of at self.now) ≡ false → is_over self.now.stage ≡ true }
    {
        match &self.stage {
            EntryStage::Changing(transaction, found) => begins_under(transaction, *found, at),
            EntryStage::Removes(removal) => removal.begins(),
            _ => Ok(None),
        }
    }

    fn reply(&self) -> Result<Option<Reply>, NoMemory>
        ensures some { (reply : Reply) → result ≡ Ok (Some reply) → (at : ℕ) → next_of at self.now ≡ Next.End reply }
        ensures none { result ≡ Ok None → is_over self.now.stage ≡ false }
    {
        match &self.stage {
            EntryStage::Walking => Ok(None),
            EntryStage::Changing(transaction, found) => end_under(self.alloc, transaction, *found),
            EntryStage::Removes(removal) => removal.end(self.alloc),
            EntryStage::Ending(reply) => ending(self.alloc, reply),
        }
    }
}

/// Whom the next line under the locks asks, where it is a request.
fn change_asks(
    walk: &Walk,
    job: EntryJob,
    transaction: &Transaction,
    found: Found,
    request: &mut Request,
) -> Option<BrickId>
    ensures some { (b : BrickId) → result ≡ Some b → (at : ℕ) → next_under found at job walk.now transaction.now ≡ Next.Ask b request.new }
    ensures none { result ≡ None → (at : ℕ) → is_ask (next_under found at job walk.now transaction.now) ≡ false }
{
    match found {
        Found::Unread(brick) => {
            if !transaction.is_beginning() {
                return transaction.asks(request);
            }
            *request = reads_name(job, walk);
            Some(brick)
        }
        Found::Fits => transaction.asks(request),
        Found::Refused(_) => transaction.asks(request),
    }
}

/// A reply that was kept until the end.
pub(crate) fn ending(alloc: Global, reply: &KeptReply) -> Result<Option<Reply>, NoMemory>
    ensures some { (said : Reply) → result ≡ Ok (Some said) → Next.End reply.now ≡ Next.End said }
    ensures none { result ≡ Ok None → ⊥ }
{
    let reply = reply.to_reply(alloc)?;
    Ok(Some(reply))
}
