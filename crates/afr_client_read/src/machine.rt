//! The machine of one read: what it asks next, and what it makes of the answers.
ghost use Rattle.std.specs.Prelude.{None, Ok, Some, ◌≡◌, ◌<◌, ◌≤◌, IfOk, OnErr, OnOk, false, not};
ghost use Rattle.afr_client_read.specs.Lookup.{IsLookup, answered, choices_of, is_asking, lookup_from, next_of};
ghost use Rattle.afr_rule.specs.Choosing.{IsRule};
ghost use Rattle.afr_client_walk.specs.Choosing.{RuleAnswers, reader_of};
ghost use Rattle.afr_discipline.specs.Free.{Allows, is_ask};

use crate::job::{LookupJob, request_of};
use crate::stage::{LookupStage, leave, stage_heard};
use afr_base::{BrickId, NameId, NoMemory, Shape};
use afr_client_walk::{Walk, names_of};
use afr_discipline::Register;
use afr_lines::{Answer, KeptReply, Next, Reply, Request};
use afr_object::Load;
use afr_rule::{Candidate, ReadRule};
use std::alloc::Global;
use std::marker::Model;

/// A command that reads an object.
#[derive(Drop)]
pub struct LookupMachine {
    alloc: Global,
    walk: Walk,
    job: LookupJob,
    stage: LookupStage,
}

impl Model for LookupMachine {
    ghost use Rattle.afr_client_read.specs.Lookup.{Lookup, IsLookup};

    ghost Value = { Lookup };

    ghost view = { λ m. record { walk = m.walk; job = m.job; stage = m.stage } };

    ghost invariant = { λ m. IsLookup m.walk m.stage };
}

impl LookupMachine {
    pub fn new(
        alloc: Global,
        shape: Shape,
        path: &[NameId],
        job: LookupJob,
    ) -> Result<LookupMachine, NoMemory>
        requires few { shape.n ≤ 5 }
        requires some { 0 < shape.n }
        ensures value { IfOk result (λ machine. machine ≡ lookup_from shape path.now job) }
    {
        let walk = Walk::along(shape, names_of(alloc, path)?);
        let mut stage = LookupStage::Walking;
        leave(job, &walk, &mut stage);
        Ok(LookupMachine {
            alloc,
            walk,
            job,
            stage,
        })
    }

    /// Another command begins in this one's place, for a machine is large. Only the names of its path take memory.
    pub fn begin_again(
        &mut self,
        shape: Shape,
        path: &[NameId],
        job: LookupJob,
    ) -> Result<(), NoMemory>
        requires few { shape.n ≤ 5 }
        requires some { 0 < shape.n }
        ensures ok { OnOk result (self.new ≡ lookup_from shape path.now job) }
        ensures err { OnErr result (self.new ≡ self.old) }
    {
        let names = names_of(self.alloc, path)?;
        self.walk.begin_again(shape, names);
        self.job = job;
        leave(job, &self.walk, &mut self.stage);
        Ok(())
    }

    /// Whom the next line asks, where it is a request; that is written where it is to stand, for it is large.
    pub fn asks(&self, request: &mut Request) -> Option<BrickId>
        ensures some { (b : BrickId) → result ≡ Some b → next_of self.now ≡ Next.Ask b request.new }
        ensures none { result ≡ None → is_ask (next_of self.now) ≡ false }
        ensures allowed { (b : BrickId) → result ≡ Some b → Allows self.now.walk.register (Next.Ask b request.new) }
    {
        self.stays_sound();
        self.ask(request)
    }

    /// A read carries no contents.
    pub fn load(&self) -> Load<'_>
        ensures { result ≡ Load.Nothing }
    {
        Load::Nothing
    }

    /// This request was written, and the brick has answered. What was read is taken out of the answer, and not copied. Once all
    /// copies were looked at the rule picks the one that is read; this is what it has picked now.
    pub fn hear<G: Fn(&[Candidate]) -> usize>(
        &mut self,
        brick: BrickId,
        request: &Request,
        answer: &mut Answer,
        at: u32,
        rule: &ReadRule<G>,
    ) -> Option<BrickId>
        requires rule { IsRule G.Fn rule.now }
        requires asked { next_of self.old ≡ Next.Ask brick request.now }
        ensures picked { RuleAnswers G.Fn rule.now (choices_of answer.old self.old) result }
        ensures value { self.new ≡ answered (reader_of result) answer.old at self.old }
    {
        stage_heard(
            self.alloc,
            &mut self.walk,
            self.job,
            &mut self.stage,
            brick,
            request,
            answer,
            at,
            rule,
        )
    }

    /// The reply, where the next line is the end. Only its copy takes memory.
    pub fn end(&self) -> Result<Option<Reply>, NoMemory>
        ensures some { (reply : Reply) → result ≡ Ok (Some reply) → next_of self.now ≡ Next.End reply }
        ensures none { result ≡ Ok None → not (is_asking self.now.stage) ≡ false }
        ensures allowed { (reply : Reply) → result ≡ Ok (Some reply) → Allows self.now.walk.register (Next.End reply) }
    {
        self.stays_sound();
        self.reply()
    }

    /// What the lines so far show.
    pub fn register(&self) -> &Register
        ensures { result.now ≡ self.now.walk.register }
    {
        &self.walk.register
    }

    /// What the machine keeps at every moment, for those who prove over its value.
    pub fn stays_sound(&self)
        ensures { IsLookup self.now.walk self.now.stage }
    {
        let _ = &self.walk;
    }

    fn ask(&self, request: &mut Request) -> Option<BrickId>
        ensures some { (b : BrickId) → result ≡ Some b → next_of self.now ≡ Next.Ask b request.new }
        ensures none { result ≡ None → is_ask (next_of self.now) ≡ false }
    {
        match &self.stage {
            LookupStage::Walking => self.walk.asks(request),
            LookupStage::Looking(looks) => {
                *request = Request::Look {
                    gfid: self.walk.object.gfid,
                };
                Some(looks.next_brick(self.walk.shape.n))
            }
            LookupStage::Reading(brick, content) => {
                *request = request_of(self.walk.object.gfid, *content);
                Some(*brick)
            }
            LookupStage::Ending(_) => None,
        }
    }

    fn reply(&self) -> Result<Option<Reply>, NoMemory>
        ensures some { (reply : Reply) → result ≡ Ok (Some reply) → next_of self.now ≡ Next.End reply }
        ensures none { result ≡ Ok None → not (is_asking self.now.stage) ≡ false }
    {
        match &self.stage {
            LookupStage::Ending(reply) => ending(self.alloc, reply),
            _ => Ok(None),
        }
    }
}

fn ending(alloc: Global, reply: &KeptReply) -> Result<Option<Reply>, NoMemory>
    ensures some { (said : Reply) → result ≡ Ok (Some said) → Next.End reply.now ≡ Next.End said }
    ensures none { result ≡ Ok None → ⊥ }
{
    let reply = reply.to_reply(alloc)?;
    Ok(Some(reply))
}
