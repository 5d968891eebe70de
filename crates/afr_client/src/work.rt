//! The machine of a client's present command: its next line, and what it makes of the answer.
ghost use Rattle.std.specs.Prelude.{◌≡◌, ℕ, ◌<◌, ◌≤◌, None, Ok, Some, false, true};
ghost use Rattle.afr_discipline.specs.Stands.{HasFive};
ghost use Rattle.afr_rule.specs.Choosing.{IsRule};
ghost use Rattle.afr_client_walk.specs.Choosing.{RuleAnswers, reader_of};
ghost use Rattle.afr_discipline.specs.Free.{Allows, is_ask};
ghost use Rattle.afr_client.specs.Work.{CarriesNext, IsWork, choices_of, heard_by, is_idle, is_over, next_of, register_of};

use crate::on_heap::OnHeap;
use afr_base::{BrickId, NoMemory};
use afr_client_entry::{EntryMachine, RenameMachine};
use afr_client_read::LookupMachine;
use afr_client_write::WriteMachine;
use afr_discipline::has_five;
use afr_lines::{Answer, Heard, Next, Reply, Request};
use afr_object::{Change, Load};
use afr_rule::{Candidate, ReadRule};

/// The machine of a client's present command, if it has begun. It is on the heap: a work is moved often, and most machines
/// are large.
#[derive(Drop)]
pub enum WorkMachine {
    Idle,
    Lookup(OnHeap<LookupMachine>),
    Write(OnHeap<WriteMachine>),
    Entry(OnHeap<EntryMachine>),
    Rename(OnHeap<RenameMachine>),
}

impl WorkMachine {
    /// Whether no command has begun.
    pub fn is_idle(&self) -> bool
        ensures { result ≡ is_idle self.now }
    {
        matches!(self, WorkMachine::Idle)
    }

    /// Whom the next line asks, where it is a request; that is written where it is to stand, for it is large.
    pub fn asks(&self, request: &mut Request) -> Option<BrickId>
        ensures some { (b : BrickId) → result ≡ Some b → (at : ℕ) → next_of at self.now ≡ Next.Ask b request.new }
        ensures none { result ≡ None → (at : ℕ) → is_ask (next_of at self.now) ≡ false }
        ensures allowed { (b : BrickId) → result ≡ Some b → Allows (register_of self.now) (Next.Ask b request.new) }
    {
        match self {
            WorkMachine::Idle => None,
            WorkMachine::Lookup(machine) => machine.value.asks(request),
            WorkMachine::Write(machine) => machine.value.asks(request),
            WorkMachine::Entry(machine) => machine.value.asks(request),
            WorkMachine::Rename(machine) => machine.value.asks(request),
        }
    }

    /// The change, where the operation is asked for next.
    pub fn load(&self) -> Load<'_>
        ensures { CarriesNext self.now result }
    {
        match self {
            WorkMachine::Idle => Load::Nothing,
            WorkMachine::Lookup(machine) => machine.value.load(),
            WorkMachine::Write(machine) => machine.value.load(),
            WorkMachine::Entry(machine) => machine.value.load(),
            WorkMachine::Rename(machine) => machine.value.load(),
        }
    }

    /// This request was written at this position, and the brick has answered. A read takes what it was given out of the answer.
    /// Once all copies of an object were looked at the rule picks the one that is read; this is what it has picked now.
    pub fn hear<G: Fn(&[Candidate]) -> usize>(
        &mut self,
        brick: BrickId,
        request: &Request,
        answer: &mut Answer,
        at: u32,
        rule: &ReadRule<G>,
    ) -> Option<BrickId>
        requires rule { IsRule G.Fn rule.now }
        requires asked { next_of at self.old ≡ Next.Ask brick request.now }
        ensures picked { RuleAnswers G.Fn rule.now (choices_of answer.old at self.old) result }
        ensures value { self.new ≡ heard_by (reader_of result) (Heard.Answer answer.old at) self.old }
        ensures kept { IsWork self.new }
    {
        let picked = match self {
            WorkMachine::Idle => None,
            WorkMachine::Lookup(machine) => machine.value.hear(brick, request, answer, at, rule),
            WorkMachine::Write(machine) => machine.value.hear(brick, request, answer, at, rule),
            WorkMachine::Entry(machine) => machine.value.hear(brick, request, answer, at, rule),
            WorkMachine::Rename(machine) => machine.value.hear(brick, request, answer, at, rule),
        };
        self.stays_sound();
        picked
    }

    /// The change of the next line, where that is a Begin line at this position. Its copy takes memory.
    pub fn begins(&self, at: u32) -> Result<Option<Change>, NoMemory>
        ensures some { (change : Change) → result ≡ Ok (Some change) → next_of at self.now ≡ Next.Begin change }
        ensures none { result ≡ Ok None → is_ask (next_of at self.now) ≡ false → is_over self.now ≡ true }
        ensures allowed { (change : Change) → result ≡ Ok (Some change) → Allows (register_of self.now) (Next.Begin change) }
    {
        match self {
            WorkMachine::Idle => Ok(None),
            WorkMachine::Lookup(_) => Ok(None),
            WorkMachine::Write(machine) => machine.value.begins(at),
            WorkMachine::Entry(machine) => machine.value.begins(at),
            WorkMachine::Rename(machine) => machine.value.begins(at),
        }
    }

    /// The Begin line was written at this position. It asks no rule.
    pub fn begun(&mut self, at: u32)
        ensures value { self.new ≡ heard_by (reader_of None) (Heard.Begun at) self.old }
        ensures kept { IsWork self.new }
    {
        match self {
            WorkMachine::Idle => {}
            WorkMachine::Lookup(_) => {}
            WorkMachine::Write(machine) => machine.value.begun(at),
            WorkMachine::Entry(machine) => machine.value.begun(at),
            WorkMachine::Rename(machine) => machine.value.begun(at),
        }
        self.stays_sound();
    }

    /// The reply, where the next line is the end. Only what it copies takes memory.
    pub fn end(&self) -> Result<Option<Reply>, NoMemory>
        ensures some { (reply : Reply) → result ≡ Ok (Some reply) → (at : ℕ) → next_of at self.now ≡ Next.End reply }
        ensures none { result ≡ Ok None → is_over self.now ≡ false }
        ensures allowed { (reply : Reply) → result ≡ Ok (Some reply) → Allows (register_of self.now) (Next.End reply) }
    {
        match self {
            WorkMachine::Idle => Ok(Some(Reply::Failed)),
            WorkMachine::Lookup(machine) => machine.value.end(),
            WorkMachine::Write(machine) => machine.value.end(),
            WorkMachine::Entry(machine) => machine.value.end(),
            WorkMachine::Rename(machine) => machine.value.end(),
        }
    }

    /// What a work keeps at every moment, for those who prove over its value.
    pub fn stays_sound(&self)
        ensures sound { IsWork self.now }
        ensures five { HasFive (register_of self.now) }
    {
        match self {
            WorkMachine::Idle => {}
            WorkMachine::Lookup(machine) => {
                machine.value.stays_sound();
                has_five(machine.value.register());
            }
            WorkMachine::Write(machine) => {
                machine.value.stays_sound();
                has_five(machine.value.register());
            }
            WorkMachine::Entry(machine) => {
                machine.value.stays_sound();
                has_five(machine.value.register());
            }
            WorkMachine::Rename(machine) => {
                machine.value.stays_sound();
                has_five(machine.value.register());
            }
        }
    }
}
