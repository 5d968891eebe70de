//! The machine of one write, cut or change of an attribute: what it asks next, and what it makes of the answers.
ghost use Rattle.std.specs.Prelude.{◌≡◌, ℕ, ◌<◌, ◌≤◌, IfOk, None, Ok, OnErr, OnOk, Some, false, true};
ghost use Rattle.afr_client_write.specs.Write.{CarriesNext, IsWrite, answered, choices_at, is_over, next_of, register_of, stage_begun, write_from};
ghost use Rattle.afr_rule.specs.Choosing.{IsRule};
ghost use Rattle.afr_client_walk.specs.Choosing.{RuleAnswers, reader_of};
ghost use Rattle.afr_discipline.specs.Free.{Allows, is_ask};

use crate::job::WriteJob;
use crate::stage::{WriteStage, first, put_first, stage_begun, stage_heard};
use afr_base::{BrickId, NameId, NoMemory, Shape};
use afr_client_walk::{Walk, names_of};
use afr_discipline::Register;
use afr_lines::{Answer, KeptReply, Next, Reply, Request};
use afr_object::{Change, Load};
use afr_rule::{Candidate, ReadRule};
use std::alloc::Global;
use std::marker::Model;

/// A command that changes an object.
#[derive(Drop)]
pub struct WriteMachine {
    alloc: Global,
    walk: Walk,
    stage: WriteStage,
}

impl Model for WriteMachine {
    ghost use Rattle.afr_client_write.specs.Write.{Write, IsWrite};

    ghost Value = { Write };

    ghost view = { λ m. record { walk = m.walk; stage = m.stage } };

    ghost invariant = { λ m. IsWrite m.walk m.stage };
}

impl WriteMachine {
    pub fn new(
        alloc: Global,
        shape: Shape,
        path: &[NameId],
        job: WriteJob,
    ) -> Result<WriteMachine, NoMemory>
        requires few { shape.n ≤ 5 }
        requires some { 0 < shape.n }
        ensures value { IfOk result (λ machine. machine ≡ write_from shape path.now job) }
    {
        let walk = Walk::along(shape, names_of(alloc, path)?);
        let stage = first(job, &walk);
        Ok(WriteMachine { alloc, walk, stage })
    }

    /// Another command begins in this one's place, for a machine is large. Only the names of its path take memory.
    pub fn begin_again(
        &mut self,
        shape: Shape,
        path: &[NameId],
        job: WriteJob,
    ) -> Result<(), NoMemory>
        requires few { shape.n ≤ 5 }
        requires some { 0 < shape.n }
        ensures ok { OnOk result (self.new ≡ write_from shape path.now job) }
        ensures err { OnErr result (self.new ≡ self.old) }
    {
        let names = names_of(self.alloc, path)?;
        self.walk.begin_again(shape, names);
        put_first(job, &self.walk, &mut self.stage);
        Ok(())
    }

    /// Whom the next line asks, where it is a request; that is written where it is to stand.
    pub fn asks(&self, request: &mut Request) -> Option<BrickId>
        ensures some { (b : BrickId) → result ≡ Some b → (at : ℕ) → next_of at self.now ≡ Next.Ask b request.new }
        ensures none { result ≡ None → (at : ℕ) → is_ask (next_of at self.now) ≡ false }
        ensures allowed { (b : BrickId) → result ≡ Some b → Allows (register_of self.now) (Next.Ask b request.new) }
    {
        self.stays_sound();
        self.ask(request)
    }

    /// The change, where the operation is asked for next.
    pub fn load(&self) -> Load<'_>
        ensures { CarriesNext self.now.stage result }
    {
        match &self.stage {
            WriteStage::Changing(transaction) => transaction.load(),
            _ => Load::Nothing,
        }
    }

    /// The request was written, and the brick has answered. Where all copies of a directory on the way were looked at, the rule
    /// picks the one that is read; this is what it has picked now.
    pub fn hear<G: Fn(&[Candidate]) -> usize>(
        &mut self,
        brick: BrickId,
        request: &Request,
        answer: &Answer,
        at: u32,
        rule: &ReadRule<G>,
    ) -> Option<BrickId>
        requires rule { IsRule G.Fn rule.now }
        requires asked { next_of at self.old ≡ Next.Ask brick request.now }
        ensures picked { RuleAnswers G.Fn rule.now (choices_at self.old.stage answer.now self.old.walk) result }
        ensures value { self.new ≡ answered (reader_of result) answer.now at self.old }
    {
        stage_heard(
            &mut self.walk,
            &mut self.stage,
            brick,
            request,
            answer,
            at,
            rule,
        )
    }

    /// The change of the next line, where that is a Begin line at this position. Its copy takes memory.
    pub fn begins(&self, at: u32) -> Result<Option<Change>, NoMemory>
        ensures some { (change : Change) → result ≡ Ok (Some change) → next_of at self.now ≡ Next.Begin change }
        ensures none { result ≡ Ok None → is_ask (next_of at self.now) ≡ false → is_over self.now.stage ≡ true }
        ensures allowed { (change : Change) → result ≡ Ok (Some change) → Allows (register_of self.now) (Next.Begin change) }
    {
        self.stays_sound();
        self.change(at)
    }

    /// The Begin line was written at this position.
    pub fn begun(&mut self, at: u32)
        ensures { self.new ≡ record self.old { stage = stage_begun self.old.stage at } }
    {
        stage_begun(&mut self.stage, at);
    }

    /// The reply, where the next line is the end. Only its copy takes memory.
    pub fn end(&self) -> Result<Option<Reply>, NoMemory>
        ensures some { (reply : Reply) → result ≡ Ok (Some reply) → (at : ℕ) → next_of at self.now ≡ Next.End reply }
        ensures none { result ≡ Ok None → is_over self.now.stage ≡ false }
        ensures allowed { (reply : Reply) → result ≡ Ok (Some reply) → Allows (register_of self.now) (Next.End reply) }
    {
        self.stays_sound();
        self.reply()
    }

    /// What the lines so far show.
    pub fn register(&self) -> &Register
        ensures { result.now ≡ register_of self.now }
    {
        match &self.stage {
            WriteStage::Changing(transaction) => transaction.register(),
            _ => &self.walk.register,
        }
    }

    /// What the machine keeps at every moment, for those who prove over its value.
    pub fn stays_sound(&self)
        ensures { IsWrite self.now.walk self.now.stage }
    {
        let _ = &self.walk;
    }

    fn ask(&self, request: &mut Request) -> Option<BrickId>
        ensures some { (b : BrickId) → result ≡ Some b → (at : ℕ) → next_of at self.now ≡ Next.Ask b request.new }
        ensures none { result ≡ None → (at : ℕ) → is_ask (next_of at self.now) ≡ false }
    {
        match &self.stage {
            WriteStage::Walking(_) => self.walk.asks(request),
            WriteStage::Changing(transaction) => transaction.asks(request),
            WriteStage::Ending(_) => None,
        }
    }

    fn change(&self, at: u32) -> Result<Option<Change>, NoMemory>
        ensures some { (change : Change) → result ≡ Ok (Some change) → next_of at self.now ≡ Next.Begin change }
        ensures none { result ≡ Ok None → is_ask (next_of at self.now) ≡ false → is_over self.now.stage ≡ true }
    {
        match &self.stage {
            WriteStage::Changing(transaction) => transaction.begins(at),
            _ => Ok(None),
        }
    }

    fn reply(&self) -> Result<Option<Reply>, NoMemory>
        ensures some { (reply : Reply) → result ≡ Ok (Some reply) → (at : ℕ) → next_of at self.now ≡ Next.End reply }
        ensures none { result ≡ Ok None → is_over self.now.stage ≡ false }
    {
        match &self.stage {
            WriteStage::Walking(_) => Ok(None),
            WriteStage::Changing(transaction) => transaction.end(self.alloc),
            WriteStage::Ending(reply) => ending(self.alloc, reply),
        }
    }
}

fn ending(alloc: Global, reply: &KeptReply) -> Result<Option<Reply>, NoMemory>
    ensures some { (said : Reply) → result ≡ Ok (Some said) → Next.End reply.now ≡ Next.End said }
    ensures none { result ≡ Ok None → ⊥ }
{
    let reply = reply.to_reply(alloc)?;
    Ok(Some(reply))
}
