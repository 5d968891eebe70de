//! The machine of one rename: what it asks next, and what it makes of the answers.
ghost use Rattle.std.specs.Prelude.{None, Ok, Some, ◌≡◌, ℕ, ◌<◌, ◌≤◌, ◌&&◌, IfOk, false, length, not, true};
ghost use Rattle.afr_client_entry.specs.Renames.Rename.{CarriesNext, IsRename, answered, choices_at, is_done, is_over, making_next, next_of, register_of, removing_next, rename_from, stage_begun};
ghost use Rattle.afr_rule.specs.Choosing.{IsRule};
ghost use Rattle.afr_client_walk.specs.Choosing.{RuleAnswers, reader_of};
ghost use Rattle.afr_discipline.specs.Free.{Allows, is_ask};
ghost use Rattle.afr_client_transaction.specs.Progress as progress;

use crate::Found;
use crate::machine::ending;
use crate::renaming::paths::{Paths, paths_from, reads_new, reads_old};
use crate::renaming::refusal::half_reply;
use crate::renaming::stage::{RenameStage, is_done, stage_begun, stage_heard, turn};
use crate::renaming::under::asks_under;
use crate::under::{begins_under, end_under};
use afr_base::{BrickId, NameId, NoMemory, Shape};
use afr_client_transaction::Transaction;
use afr_discipline::Register;
use afr_lines::{Answer, Next, Reply, Request};
use afr_object::{Change, Load};
use afr_rule::{Candidate, ReadRule};
use std::alloc::Global;
use std::marker::Model;

/// The rename of a file.
#[derive(Drop)]
pub struct RenameMachine {
    alloc: Global,
    paths: Paths,
    stage: RenameStage,
}

impl Model for RenameMachine {
    ghost use Rattle.afr_client_entry.specs.Renames.Rename.{IsRename, Renaming};

    ghost Value = { Renaming };

    ghost view = { λ m. record { paths = m.paths; stage = m.stage } };

    ghost invariant = { λ m. IsRename m.paths m.stage };
}

impl RenameMachine {
    /// The first path leads to the file; the second one's last name is the new one. Neither is the root.
    pub fn new(
        alloc: Global,
        shape: Shape,
        from: &[NameId],
        to: &[NameId],
    ) -> Result<RenameMachine, NoMemory>
        requires few { shape.n ≤ 5 }
        requires some { 0 < shape.n }
        requires old { 0 < length from.now }
        requires new { 0 < length to.now }
        ensures value { IfOk result (λ machine. machine ≡ rename_from shape from.now to.now) }
    {
        let paths = paths_from(alloc, shape, from, to)?;
        Ok(RenameMachine {
            alloc,
            paths,
            stage: RenameStage::Finding,
        })
    }

    /// Whom the next line asks, where it is a request; that is written where it is to stand, for it is large.
    pub fn asks(&self, request: &mut Request) -> Option<BrickId>
        ensures some { (b : BrickId) → result ≡ Some b → (at : ℕ) → next_of at self.now ≡ Next.Ask b request.new }
        ensures none { result ≡ None → (at : ℕ) → is_ask (next_of at self.now) ≡ false }
        ensures allowed { (b : BrickId) → result ≡ Some b → Allows (register_of self.now) (Next.Ask b request.new) }
    {
        self.stays_sound();
        self.ask(request)
    }

    /// The change, where the operation is asked for next.
    pub fn load(&self) -> Load<'_>
        ensures { CarriesNext self.now.stage result }
    {
        match &self.stage {
            RenameStage::Making(transaction, _) => transaction.load(),
            RenameStage::Removing(transaction, _) => transaction.load(),
            _ => Load::Nothing,
        }
    }

    /// This request was written, and the brick has answered. Once all copies of a directory were looked at the rule picks the
    /// one that is read; this is what it has picked now.
    pub fn hear<G: Fn(&[Candidate]) -> usize>(
        &mut self,
        brick: BrickId,
        request: &Request,
        answer: &Answer,
        at: u32,
        rule: &ReadRule<G>,
    ) -> Option<BrickId>
        requires rule { IsRule G.Fn rule.now }
        requires asked { next_of at self.old ≡ Next.Ask brick request.now }
        ensures picked { RuleAnswers G.Fn rule.now (choices_at self.old.stage answer.now at self.old.paths) result }
        ensures value { self.new ≡ answered (reader_of result) answer.now at self.old }
    {
        stage_heard(
            &mut self.paths,
            &mut self.stage,
            brick,
            request,
            answer,
            at,
            rule,
        )
    }

    /// The change of the next line, where that is a Begin line at this position. Its copy takes memory.
    pub fn begins(&self, at: u32) -> Result<Option<Change>, NoMemory>
        ensures some { (change : Change) → result ≡ Ok (Some change) → next_of at self.now ≡ Next.Begin change }
        ensures none { result ≡ Ok None → is_ask (next_of at self.now) ≡ false → is_over self.now.stage ≡ true }
        ensures allowed { (change : Change) → result ≡ Ok (Some change) → Allows (register_of self.now) (Next.Begin change) }
    {
        self.stays_sound();
        self.change(at)
    }

    /// The Begin line was written at this position.
    pub fn begun(&mut self, at: u32)
        ensures { self.new ≡ record self.old { stage = stage_begun self.old.stage at } }
    {
        stage_begun(&mut self.stage, at);
    }

    /// The reply, where the next line is the end. Only the views of a split brain take memory.
    pub fn end(&self) -> Result<Option<Reply>, NoMemory>
        ensures some { (reply : Reply) → result ≡ Ok (Some reply) → (at : ℕ) → next_of at self.now ≡ Next.End reply }
        ensures none { result ≡ Ok None → is_over self.now.stage ≡ false }
        ensures allowed { (reply : Reply) → result ≡ Ok (Some reply) → Allows (register_of self.now) (Next.End reply) }
    {
        self.stays_sound();
        self.reply()
    }

    /// What the lines so far show.
    pub fn register(&self) -> &Register
        ensures { result.now ≡ register_of self.now }
    {
        match &self.stage {
            RenameStage::Making(transaction, _) => transaction.register(),
            RenameStage::Removing(transaction, _) => transaction.register(),
            RenameStage::Finding => &self.paths.first.register,
            _ => &self.paths.second.register,
        }
    }

    /// What the machine keeps at every moment, for those who prove over its value.
    pub fn stays_sound(&self)
        ensures { IsRename self.now.paths self.now.stage }
    {
        let _ = &self.paths;
    }

    fn ask(&self, request: &mut Request) -> Option<BrickId>
        ensures some { (b : BrickId) → result ≡ Some b → (at : ℕ) → next_of at self.now ≡ Next.Ask b request.new }
        ensures none { result ≡ None → (at : ℕ) → is_ask (next_of at self.now) ≡ false }
    {
        match &self.stage {
            RenameStage::Finding => self.paths.first.asks(request),
            RenameStage::Walking => self.paths.second.asks(request),
            RenameStage::Making(transaction, found) => {
                making_asks(&self.paths, transaction, *found, request)
            }
            RenameStage::Removing(transaction, found) => {
                removing_asks(&self.paths, transaction, *found, request)
            }
            RenameStage::Ending(_) => None,
        }
    }

    fn change(&self, at: u32) -> Result<Option<Change>, NoMemory>
        ensures some { (change : Change) → result ≡ Ok (Some change) → next_of at self.now ≡ Next.Begin change }
        ensures none { result ≡ Ok None → is_ask (next_of at self.now) ≡ false → is_over self.now.stage ≡ true }
    {
        match &self.stage {
            RenameStage::Making(transaction, found) => making_begins(transaction, *found, at),
            RenameStage::Removing(transaction, found) => begins_under(transaction, *found, at),
            _ => Ok(None),
        }
    }

    fn reply(&self) -> Result<Option<Reply>, NoMemory>
        ensures some { (reply : Reply) → result ≡ Ok (Some reply) → (at : ℕ) → next_of at self.now ≡ Next.End reply }
        ensures none { result ≡ Ok None → is_over self.now.stage ≡ false }
    {
        match &self.stage {
            RenameStage::Finding | RenameStage::Walking => Ok(None),
            RenameStage::Making(transaction, found) => making_end(self.alloc, transaction, *found),
            RenameStage::Removing(transaction, _) => Ok(removing_end(transaction)),
            RenameStage::Ending(reply) => ending(self.alloc, reply),
        }
    }
}

/// Whom the first transaction asks, or the second one with the lock that it begins with.
fn making_asks(
    paths: &Paths,
    transaction: &Transaction,
    found: Found,
    request: &mut Request,
) -> Option<BrickId>
    requires { IsRename paths.now (RenameStage.Making transaction.now found) }
    ensures some { (b : BrickId) → result ≡ Some b → (at : ℕ) → making_next found at paths.now transaction.now ≡ Next.Ask b request.new }
    ensures none { result ≡ None → (at : ℕ) → is_ask (making_next found at paths.now transaction.now) ≡ false }
{
    if is_done(transaction) {
        return turn(paths, transaction).asks(request);
    }
    asks_under(transaction, found, reads_new(paths), request)
}

/// Whom the second transaction asks.
fn removing_asks(
    paths: &Paths,
    transaction: &Transaction,
    found: Found,
    request: &mut Request,
) -> Option<BrickId>
    requires { IsRename paths.now (RenameStage.Removing transaction.now found) }
    ensures some { (b : BrickId) → result ≡ Some b → (at : ℕ) → removing_next found at paths.now transaction.now ≡ Next.Ask b request.new }
    ensures none { result ≡ None → (at : ℕ) → is_ask (removing_next found at paths.now transaction.now) ≡ false }
{
    if transaction.is_over() {
        return None;
    }
    asks_under(transaction, found, reads_old(paths), request)
}

/// The change that the first transaction begins.
fn making_begins(
    transaction: &Transaction,
    found: Found,
    at: u32,
) -> Result<Option<Change>, NoMemory>
    ensures some { (change : Change) → result ≡ Ok (Some change) → (paths : Paths) → making_next found at paths transaction.now ≡ Next.Begin change }
    ensures none { result ≡ Ok None → (paths : Paths) → is_ask (making_next found at paths transaction.now) ≡ false → (progress.is_over transaction.now.stage transaction.now && not (is_done transaction.now)) ≡ true }
{
    if is_done(transaction) {
        return Ok(None);
    }
    begins_under(transaction, found, at)
}

/// What the rename ends with, where its first transaction wasn't acknowledged.
fn making_end(
    alloc: Global,
    transaction: &Transaction,
    found: Found,
) -> Result<Option<Reply>, NoMemory>
    ensures some { (reply : Reply) → result ≡ Ok (Some reply) → (at : ℕ) (paths : Paths) → making_next found at paths transaction.now ≡ Next.End reply }
    ensures none { result ≡ Ok None → (progress.is_over transaction.now.stage transaction.now && not (is_done transaction.now)) ≡ false }
{
    if is_done(transaction) {
        return Ok(None);
    }
    end_under(alloc, transaction, found)
}

/// What it ends with after its second transaction. Where that isn't acknowledged the rename stays half.
fn removing_end(transaction: &Transaction) -> Option<Reply>
    ensures some { (reply : Reply) → result ≡ Some reply → (found : Found) (at : ℕ) (paths : Paths) → removing_next found at paths transaction.now ≡ Next.End reply }
    ensures none { result ≡ None → progress.is_over transaction.now.stage transaction.now ≡ false }
{
    if transaction.is_over() {
        Some(half_reply(&transaction.outcome()))
    } else {
        None
    }
}
