//! One transaction: what it asks next, and what an answer leaves of it.
ghost use Rattle.std.specs.Prelude.{[], ◌≡◌, ℕ, ◌<◌, ◌≤◌, ◌+◌, ◌^◌, ◌||◌, if◌then◌else◌, true, false, None, Some, Ok, IfOk};
ghost use Rattle.afr_discipline.specs.Free.{is_ask};
ghost use Rattle.afr_discipline.specs.Stands.{no_lines};
ghost use Rattle.afr_discipline.specs.declared.register.Register.{Register};
ghost use Rattle.afr_lines.specs.Told.{told_by};
ghost use Rattle.afr_lines.specs.declared.answer.Told.{Told};
ghost use Rattle.afr_client_transaction.specs.Between.{given_up, is_read, noted_read};
ghost use Rattle.afr_client_transaction.specs.Made.{attempted};
ghost use Rattle.afr_client_transaction.specs.Outcome.{outcome_of, reply_of};
ghost use Rattle.afr_client_transaction.specs.Progress.{CarriesAt, TransactionProgress, allowed, answered, begun, is_beginning, is_over, left, next_at, request_at, starting};
ghost use Rattle.afr_client_transaction.specs.Sound.{IsUnused, Sound, Suits};

use crate::change::{made_by, numbered};
use crate::lock::{is_held, lock_request, met_another, says_held, to_lock};
use crate::reply::{TransactionOutcome, outcome_of, reply_of};
use crate::stage::{LocksAndLooks, Stage, after, asking, left_after};
use afr_base::{BrickId, BrickSet, NoMemory, Shape};
use afr_discipline::{Move, Register, fresh, note, note_outside};
use afr_lines::{Answer, Next, Reply, Request, Told, told_of};
use afr_object::{Change, Load};
use std::alloc::Global;
use std::marker::Model;

/// One transaction, of one change of one object.
#[derive(Drop)]
pub struct Transaction {
    change: Change,
    /// The change as its Begin line has it, where it makes an object, whose number the line gives.
    made: Option<Change>,
    register: Register,
    stage: Stage,
    asked: LocksAndLooks,
    /// Whether the latest answer was that another actor holds the area. Told so once more, a transaction stays as it is.
    waits: bool,
    /// The request for the lock, which is asked again and again while another actor holds the area.
    lock: Request,
}

impl Model for Transaction {
    ghost use Rattle.std.specs.Prelude.{◌≡◌};
    ghost use Rattle.afr_client_transaction.specs.Progress.{TransactionProgress};
    ghost use Rattle.afr_client_transaction.specs.Made.{IsTransaction, Waits, lock_of};

    ghost Value = { TransactionProgress };

    ghost view = { λ m. record { change = m.change; register = m.register; stage = m.stage; asked = m.asked } };

    ghost invariant = { λ m. IsTransaction m.made (record { change = m.change; register = m.register; stage = m.stage; asked = m.asked }) × Waits m.waits (record { change = m.change; register = m.register; stage = m.stage; asked = m.asked }) × (m.lock ≡ lock_of m.change) };
}

impl Transaction {
    /// Nothing was asked yet. `has_area` tells which changes suit; `begins` puts in the number of a new object.
    pub fn new(shape: Shape, change: Change) -> Transaction
        requires few { shape.n ≤ 5 }
        requires some { 0 < shape.n }
        requires suits { Suits change }
        ensures value { result ≡ record { change = change; register = no_lines shape; stage = Stage.Locking; asked = record { lock_asked = []; locked_on = []; looked_at = [] } } }
    {
        Transaction::continuing(fresh(shape), change)
    }

    /// The work has looked and read without a lock so far, as on a path that leads to the object, and this is its register.
    pub fn continuing(register: Register, change: Change) -> Transaction
        requires unused { IsUnused register }
        requires few { register.shape.n ≤ 5 }
        requires some { 0 < register.shape.n }
        requires suits { Suits change }
        ensures value { result ≡ starting change register }
    {
        let lock = lock_request(&change);
        Transaction {
            change,
            made: None,
            register,
            stage: Stage::Locking,
            asked: LocksAndLooks {
                lock_asked: BrickSet::none(),
                locked_on: BrickSet::none(),
                looked_at: BrickSet::none(),
            },
            waits: false,
            lock,
        }
    }

    /// Whom the next line asks, where it is a request; that is written where it is to stand, for it is large.
    pub fn asks(&self, request: &mut Request) -> Option<BrickId>
        ensures some { (b : BrickId) → result ≡ Some b → (at : ℕ) → next_at self.now.stage at self.now ≡ Next.Ask b request.new }
        ensures none { result ≡ None → (is_beginning self.now.stage || is_over self.now.stage self.now) ≡ true }
        ensures allowed { (b : BrickId) → result ≡ Some b → allowed self.now.register (Next.Ask b request.new) ≡ true }
    {
        let left = self.asking(self.stage, request);
        if left.is_empty() {
            return None;
        }
        Some(left.lowest())
    }

    /// The change of the next line, where that is a Begin line at this position. Its copy takes memory.
    pub fn begins(&self, at: u32) -> Result<Option<Change>, NoMemory>
        ensures some { (change : Change) → result ≡ Ok (Some change) → next_at self.now.stage at self.now ≡ Next.Begin change }
        ensures none { result ≡ Ok None → is_ask (next_at self.now.stage at self.now) ≡ false → is_over self.now.stage self.now ≡ true }
        ensures allowed { (change : Change) → result ≡ Ok (Some change) → allowed self.now.register (Next.Begin change) ≡ true }
    {
        match self.stage {
            Stage::Beginning => {
                let change = numbered(&self.change, at)?;
                Ok(Some(change))
            }
            _ => Ok(None),
        }
    }

    /// The reply, where the next line is the end. Only the views of a split brain take memory.
    pub fn end(&self, alloc: Global) -> Result<Option<Reply>, NoMemory>
        ensures some { (reply : Reply) → result ≡ Ok (Some reply) → (at : ℕ) → next_at self.now.stage at self.now ≡ Next.End reply }
        ensures none { result ≡ Ok None → is_over self.now.stage self.now ≡ false }
        ensures allowed { (reply : Reply) → result ≡ Ok (Some reply) → allowed self.now.register (Next.End reply) ≡ true }
    {
        self.stays_sound();
        if !self.is_over() {
            return Ok(None);
        }
        let reply = self.reply(alloc)?;
        Ok(Some(reply))
    }

    /// The change as its Begin line has it, where the operation is asked for next.
    pub fn load(&self) -> Load<'_>
        ensures { CarriesAt self.now.stage result (attempted self.now) }
    {
        match self.stage {
            Stage::Applying => match &self.made {
                Some(made) => Load::Change(made),
                None => Load::Change(&self.change),
            },
            _ => Load::Nothing,
        }
    }

    /// Whether the next line is a Begin line.
    pub fn is_beginning(&self) -> bool
        ensures { result ≡ is_beginning self.now.stage }
    {
        matches!(self.stage, Stage::Beginning)
    }

    /// The Begin line was written at this position, where the attempt was to begin.
    pub fn begun(&mut self, at: u32)
        ensures { self.new ≡ (if is_beginning self.old.stage then begun at self.old else self.old) }
    {
        if !self.is_beginning() {
            return;
        }
        note(
            &mut self.register,
            &Move::Begin(&self.change),
            &Told::Done,
            at,
        );
        self.made = made_by(&self.change, at);
        self.stage = Stage::Preparing;
        self.waits = false;
    }

    /// The request was written at this position, and this was told. An actor that waits for another is told the same again and
    /// again, and a line that changes nothing is to cost little.
    pub fn hear(&mut self, brick: BrickId, request: &Request, told: &Told, at: u32)
        requires asked { next_at self.old.stage at self.old ≡ Next.Ask brick request.now }
        ensures { self.new ≡ answered self.old.stage told.now at self.old }
    {
        if self.waits && is_held(told) {
            return;
        }
        let stage = self.stage;
        note_outside(&mut self.register, brick, request, told, at);
        let left = left_after(stage, brick, told, &self.register, &mut self.asked);
        self.stage = after(stage, left, &self.change, &self.register, &self.asked);
        self.waits = met_another(stage, told);
    }

    /// The same of an answer. Where another actor holds the area once more, nothing is made of it.
    pub fn hear_answer(&mut self, brick: BrickId, request: &Request, answer: &Answer, at: u32)
        requires asked { next_at self.old.stage at self.old ≡ Next.Ask brick request.now }
        ensures { self.new ≡ answered self.old.stage (told_by answer.now) at self.old }
    {
        if self.waits && says_held(answer) {
            return;
        }
        self.hear(brick, request, &told_of(answer), at);
    }

    /// The work has read something between the looks and the attempt, which `give_up` may follow.
    pub fn note_read(&mut self, brick: BrickId, request: &Request, told: &Told, at: u32)
        requires beginning { is_beginning self.old.stage ≡ true }
        requires small { brick.0 < 5 }
        requires reads { is_read request.now ≡ true }
        ensures { self.new ≡ noted_read brick.0 request.now told.now at self.old }
    {
        note(&mut self.register, &Move::Ask(brick, request), told, at);
        self.waits = false;
    }

    /// The change is given up before its attempt: the locks are released, and then the work ends.
    pub fn give_up(&mut self)
        requires { is_beginning self.old.stage ≡ true }
        ensures { self.new ≡ given_up self.old }
    {
        self.stage = Stage::Closing;
        self.waits = false;
    }

    /// Whether no lock is left to release: the next line is the end of the work.
    pub fn is_over(&self) -> bool
        ensures { result ≡ is_over self.now.stage self.now }
    {
        match self.stage {
            Stage::Closing => self.register.held.is_empty(),
            _ => false,
        }
    }

    /// What the bricks have done so far comes to; where the transaction is over, what it ends with.
    pub fn outcome(&self) -> TransactionOutcome
        ensures { result ≡ outcome_of self.now.change self.now.register }
    {
        outcome_of(&self.change, &self.register)
    }

    /// What the lines so far show.
    pub fn register(&self) -> &Register
        ensures { result.now ≡ self.now.register }
    {
        &self.register
    }

    /// What the transaction keeps at every moment, for those who prove over its value.
    pub fn stays_sound(&self)
        ensures { Sound self.now }
    {
        let _ = &self.register;
    }

    /// Who is still to be asked, and for what. The request for the lock is there already.
    fn asking(&self, stage: Stage, request: &mut Request) -> BrickSet
        ensures left { result ≡ left stage self.now }
        ensures request { request.new ≡ request_at stage self.now }
    {
        match stage {
            Stage::Locking => {
                *request = self.lock;
                to_lock(self.register.shape.n, &self.asked)
            }
            _ => asking(stage, &self.change, &self.register, &self.asked, request),
        }
    }

    fn reply(&self, alloc: Global) -> Result<Reply, NoMemory>
        ensures { IfOk result (λ reply. reply ≡ reply_of self.now.change self.now.register) }
    {
        reply_of(alloc, &self.change, &self.register)
    }
}
