//! A client's present work, and beside it the places of works that have ended.
ghost use Rattle.std.specs.Prelude.{◌≡◌, ℕ, ◌<◌, ◌≤◌, None, Ok, OnErr, OnOk, Some, false, true};
ghost use Rattle.afr_discipline.specs.Stands.{HasFive};
ghost use Rattle.afr_rule.specs.Choosing.{IsRule};
ghost use Rattle.afr_client_walk.specs.Choosing.{RuleAnswers, reader_of};
ghost use Rattle.afr_discipline.specs.Free.{Allows, is_ask};
ghost use Rattle.afr_client.specs.Begin.{has_machine, work_from};
ghost use Rattle.afr_client.specs.Work.{CarriesNext, IsWork, choices_of, heard_by, is_idle, is_over, next_of, register_of};

use crate::begin::work_for;
use crate::spares::Spares;
use crate::work::WorkMachine;
use afr_base::{BrickId, NoMemory, Shape};
use afr_lines::{Answer, Heard, Next, Reply, Request};
use afr_object::{Change, Load};
use afr_plan::Command;
use afr_rule::{Candidate, ReadRule};
use std::alloc::Global;
use std::marker::Model;
use std::mem;

/// The machine of a client's present command, if it has begun. It begins where one that has ended lay, for a machine is large.
/// Contracts see the machine; each call but the first three is the machine's.
#[derive(Drop)]
pub struct Work {
    machine: WorkMachine,
    spares: Spares,
}

impl Model for Work {
    ghost use Rattle.afr_client.specs.declared.work.WorkMachine.{WorkMachine};

    ghost Value = { WorkMachine };

    ghost view = { λ w. w.machine };
}

impl Work {
    /// No command has begun.
    pub fn none() -> Work
        ensures { result ≡ WorkMachine.Idle }
    {
        Work {
            machine: WorkMachine::Idle,
            spares: Spares::none(),
        }
    }

    /// A command begins. Only what its machine takes, and no spare has, takes memory.
    pub fn begin(&mut self, alloc: Global, shape: Shape, command: &Command) -> Result<(), NoMemory>
        requires few { shape.n ≤ 5 }
        requires some { 0 < shape.n }
        requires has { has_machine command.now ≡ true }
        ensures ok { OnOk result (self.new ≡ work_from shape command.now) }
        ensures sound { OnOk result (IsWork self.new) }
        ensures err { OnErr result (self.new ≡ self.old) }
    {
        self.machine = work_for(alloc, shape, command, &mut self.spares)?;
        Ok(())
    }

    /// The command has ended.
    pub fn rest(&mut self)
        ensures { self.new ≡ WorkMachine.Idle }
    {
        let ended = mem::replace(&mut self.machine, WorkMachine::Idle);
        self.spares.keep(ended);
    }

    pub fn is_idle(&self) -> bool
        ensures { result ≡ is_idle self.now }
    {
        self.machine.is_idle()
    }

    pub fn asks(&self, request: &mut Request) -> Option<BrickId>
        ensures some { (b : BrickId) → result ≡ Some b → (at : ℕ) → next_of at self.now ≡ Next.Ask b request.new }
        ensures none { result ≡ None → (at : ℕ) → is_ask (next_of at self.now) ≡ false }
        ensures allowed { (b : BrickId) → result ≡ Some b → Allows (register_of self.now) (Next.Ask b request.new) }
    {
        self.machine.asks(request)
    }

    pub fn load(&self) -> Load<'_>
        ensures { CarriesNext self.now result }
    {
        self.machine.load()
    }

    pub fn hear<G: Fn(&[Candidate]) -> usize>(
        &mut self,
        brick: BrickId,
        request: &Request,
        answer: &mut Answer,
        at: u32,
        rule: &ReadRule<G>,
    ) -> Option<BrickId>
        requires rule { IsRule G.Fn rule.now }
        requires asked { next_of at self.old ≡ Next.Ask brick request.now }
        ensures picked { RuleAnswers G.Fn rule.now (choices_of answer.old at self.old) result }
        ensures value { self.new ≡ heard_by (reader_of result) (Heard.Answer answer.old at) self.old }
        ensures kept { IsWork self.new }
    {
        self.machine.hear(brick, request, answer, at, rule)
    }

    pub fn begins(&self, at: u32) -> Result<Option<Change>, NoMemory>
        ensures some { (change : Change) → result ≡ Ok (Some change) → next_of at self.now ≡ Next.Begin change }
        ensures none { result ≡ Ok None → is_ask (next_of at self.now) ≡ false → is_over self.now ≡ true }
        ensures allowed { (change : Change) → result ≡ Ok (Some change) → Allows (register_of self.now) (Next.Begin change) }
    {
        self.machine.begins(at)
    }

    pub fn begun(&mut self, at: u32)
        ensures value { self.new ≡ heard_by (reader_of None) (Heard.Begun at) self.old }
        ensures kept { IsWork self.new }
    {
        self.machine.begun(at);
    }

    pub fn end(&self) -> Result<Option<Reply>, NoMemory>
        ensures some { (reply : Reply) → result ≡ Ok (Some reply) → (at : ℕ) → next_of at self.now ≡ Next.End reply }
        ensures none { result ≡ Ok None → is_over self.now ≡ false }
        ensures allowed { (reply : Reply) → result ≡ Ok (Some reply) → Allows (register_of self.now) (Next.End reply) }
    {
        self.machine.end()
    }

    pub fn stays_sound(&self)
        ensures sound { IsWork self.now }
        ensures five { HasFive (register_of self.now) }
    {
        self.machine.stays_sound();
    }
}
