//! The machine of a heal: what it asks next, and what it makes of the answers.
ghost use Rattle.std.specs.Prelude.{◌≡◌, ◌<◌, ◌≤◌, ◌||◌, IfOk, OnOk, OnErr, not};
ghost use Rattle.afr_discipline.specs.Stands.{heal_part_of, seen_as};
ghost use Rattle.afr_heal.specs.Coming.{comes};
ghost use Rattle.afr_heal.specs.Engine.{Ask, Begins};
ghost use Rattle.afr_model_moves.specs.Keeps.{keeps_in};
ghost use Rattle.afr_model_moves.specs.Register.{is_opening};
ghost use Rattle.afr_model_moves.specs.Steps.{looks_over};
ghost use Rattle.afr_rule.specs.Choosing.{IsRule};
ghost use Rattle.afr_heal_machine.specs.Contents.{load_in};
ghost use Rattle.afr_heal_machine.specs.Healing.{CanHear, IsFed, IsHealing, begun, coming, heal_from, made_ready};
ghost use Rattle.afr_heal_machine.specs.Outcome.{reply_of};

use crate::causes::outcome_after;
use crate::contents::{ReadSoFar, keep, load, nothing, ready};
use crate::ending::ending;
use crate::hearing::{has_looked, note_answer, put_told, source_after};
use crate::laws::a_heal_stays_sound;
use crate::outcome::HealOutcome;
use afr_base::{BrickId, Gfid, Kind, NoMemory, Shape};
use afr_discipline::{Move, Register, fresh, note, present_part, renew};
use afr_heal::{Coming, heal_next};
use afr_lines::{Answer, HealReply, Request, Told};
use afr_object::Load;
use afr_rule::{Candidate, SourceRule};
use std::alloc::Global;
use std::marker::Model;

/// A heal of one kind of one object: its engine is the register of its lines and the source, beside which it keeps what it
/// read and how it ends. It is asked on over the sessions that its first line found.
#[derive(Drop)]
pub struct HealMachine {
    alloc: Global,
    gfid: Gfid,
    kind: Kind,
    register: Register,
    source: BrickId,
    outcome: HealOutcome,
    contents: ReadSoFar,
    /// What the latest answer told.
    told: Told,
}

impl Model for HealMachine {
    ghost use Rattle.afr_heal_machine.specs.Healing.{Healing, IsHealing};

    ghost Value = { Healing };

    ghost view = { λ m. record { gfid = m.gfid; kind = m.kind; register = m.register; source = m.source; outcome = m.outcome; contents = m.contents } };

    ghost invariant = { λ m. IsHealing (record { gfid = m.gfid; kind = m.kind; register = m.register; source = m.source; outcome = m.outcome; contents = m.contents }) };
}

impl HealMachine {
    /// A heal that begins. It takes no memory.
    pub fn new(alloc: Global, shape: Shape, gfid: Gfid, kind: Kind) -> HealMachine
        requires few { shape.n ≤ 5 }
        requires some { 0 < shape.n }
        ensures { result ≡ heal_from shape gfid kind }
    {
        a_heal_stays_sound();
        HealMachine {
            alloc,
            gfid,
            kind,
            register: fresh(shape),
            source: BrickId(0),
            outcome: HealOutcome::Settled,
            contents: nothing(kind),
            told: Told::Done,
        }
    }

    /// Another heal begins in this one's place, for a heal is large. It takes no memory.
    pub fn begin_again(&mut self, gfid: Gfid, kind: Kind)
        requires few { self.old.register.shape.n ≤ 5 }
        requires some { 0 < self.old.register.shape.n }
        ensures { self.new ≡ heal_from self.old.register.shape gfid kind }
    {
        a_heal_stays_sound();
        self.gfid = gfid;
        self.kind = kind;
        renew(&mut self.register);
        self.source = BrickId(0);
        self.outcome = HealOutcome::Settled;
        self.contents = nothing(kind);
    }

    /// Takes the memory of the coming move: the merge of the names that were read.
    pub fn ready(&mut self) -> Result<(), NoMemory>
        ensures ok { OnOk result (self.new ≡ made_ready self.old) }
        ensures err { OnErr result (self.new ≡ self.old) }
    {
        ready(&mut self.contents, self.alloc)
    }

    /// What the next line is; a request is written where it is to stand.
    pub fn asks(&self, request: &mut Request) -> Coming
        ensures { comes result request.new ≡ coming self.now }
    {
        heal_next(&self.register, self.source, self.gfid, self.kind, request)
    }

    /// The reply of the heal's end. Only the views of a split take memory.
    pub fn end(&self) -> Result<HealReply, NoMemory>
        ensures { IfOk result (λ reply. reply ≡ reply_of self.now.outcome self.now.register.seen) }
    {
        ending(self.alloc, self.outcome, &self.register.seen)
    }

    /// What was read, which goes with a repair.
    pub fn load(&self) -> Load<'_>
        ensures { load_in self.now.contents result }
    {
        load(&self.contents)
    }

    /// The request was written at this position, and the brick has answered. After the last of the first looks the rule picks
    /// the source; what a read gave is taken out of the answer.
    pub fn hear<F: Fn(&[Candidate]) -> usize>(
        &mut self,
        brick: BrickId,
        request: &Request,
        answer: &mut Answer,
        at: u32,
        rule: &SourceRule<F>,
    )
        requires rule { IsRule F.Fn rule.now }
        requires asked { coming self.old ≡ Ask brick.0 request.now }
        requires can { CanHear (coming self.old) answer.old }
        ensures { IsFed F.Fn rule.now answer.old at self.old self.new }
    {
        a_heal_stays_sound();
        put_told(answer, &mut self.told);
        let was = self.register.broken;
        let part = present_part(&self.register);
        note_answer(&mut self.register, brick, request, &self.told, at);
        self.outcome = outcome_after(
            &self.register,
            self.kind,
            part,
            self.source,
            request,
            &self.told,
            was,
            self.outcome,
        );
        self.source = source_after(&self.register, self.kind, self.source, rule);
        keep(&mut self.contents, brick, answer);
    }

    /// The HealBegin line was written at this position.
    pub fn begun(&mut self, at: u32)
        requires { coming self.old ≡ Begins }
        ensures { self.new ≡ begun at self.old }
    {
        a_heal_stays_sound();
        let step = Move::HealBegin(self.gfid, self.kind);
        note(&mut self.register, &step, &Told::Done, at);
    }

    pub fn gfid(&self) -> Gfid
        ensures { result ≡ self.now.gfid }
    {
        self.gfid
    }

    pub fn kind(&self) -> Kind
        ensures { result ≡ self.now.kind }
    {
        self.kind
    }

    /// The source, once one is chosen: brick 0 before that.
    pub fn source(&self) -> BrickId
        ensures { result ≡ self.now.source }
    {
        self.source
    }

    /// How the heal ends, as far as its lines tell.
    pub fn outcome(&self) -> HealOutcome
        ensures { result ≡ self.now.outcome }
    {
        self.outcome
    }

    /// Whether its first looks are over.
    pub fn has_looked(&self) -> bool
        ensures { result ≡ (not (is_opening (heal_part_of self.now.register.part)) || looks_over self.now.register.shape.n (keeps_in self.now.register.shape) (seen_as self.now.register) 0) }
    {
        has_looked(&self.register)
    }

    /// What the lines so far show.
    pub fn register(&self) -> &Register
        ensures { result.now ≡ self.now.register }
    {
        &self.register
    }

    /// What the machine keeps at every moment, for those who prove over its value.
    pub fn stays_sound(&self)
        ensures { IsHealing self.now }
    {
        let _ = &self.register;
    }
}
