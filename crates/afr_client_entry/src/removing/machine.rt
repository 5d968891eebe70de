//! One removal: what it asks next, and what an answer leaves of it.
ghost use Rattle.std.specs.Prelude.{[], None, Ok, Some, ◌≡◌, ◌<◌, ◌≤◌, ◌+◌, ◌^◌, true, false};
ghost use Rattle.afr_client_entry.specs.Entry.{removal_begun};
ghost use Rattle.afr_client_entry.specs.Removals.Removal.{CarriesAt, answered, brick_at, choices_at, is_beginning, is_over, left, next_at, removing, request_at, stage_after};
ghost use Rattle.afr_client_entry.specs.Removals.Sound.{IsAsking, IsBase, IsRemoval, IsUnbegun, Sound};
ghost use Rattle.afr_lines.specs.Areas.{area_for};
ghost use Rattle.afr_rule.specs.Choosing.{IsRule};
ghost use Rattle.afr_client_walk.specs.Choosing.{RuleAnswers, reader_of};
ghost use Rattle.afr_discipline.specs.Free.{Allows, is_ask};

use crate::removing::child::Child;
use crate::removing::stage::{
    RemovalStage, after, child_after, left_of, listed, picked_at, reply_of, request_of,
};
use afr_base::{BrickId, BrickSet, Gfid, NoMemory};
use afr_discipline::{Move, Register, note};
use afr_lines::{Answer, Next, Reply, Request, Told, told_of};
use afr_object::{Change, Load, TryCopy};
use afr_rule::{Candidate, ReadRule};
use std::alloc::Global;
use std::marker::Model;

/// The removal of one directory from the lock of the whole child on.
#[derive(Drop)]
pub struct Removal {
    change: Change,
    register: Register,
    stage: RemovalStage,
    child: Child,
}

impl Model for Removal {
    ghost use Rattle.afr_client_entry.specs.Removals.Removal.{Removing};
    ghost use Rattle.afr_client_entry.specs.Removals.Sound.{Sound};

    ghost Value = { Removing };

    ghost view = { λ m. record { change = m.change; register = m.register; stage = m.stage; child = m.child } };

    ghost invariant = { λ m. Sound (record { change = m.change; register = m.register; stage = m.stage; child = m.child }) };
}

impl Removal {
    /// The register holds the name's locks and has the looks at its directory; no attempt was begun.
    pub(crate) fn new(register: Register, change: Change, child: Gfid) -> Removal
        requires removes { IsRemoval change }
        requires base { IsBase change register }
        requires named { register.area ≡ Some (area_for change) }
        requires no_second { register.second ≡ None }
        requires none_second { register.second_held ≡ [] }
        requires unbegun { IsUnbegun register }
        ensures { result ≡ removing change register child }
    {
        let child = Child::new(child);
        let stage = after(RemovalStage::Locking, &register, &child);
        Removal {
            change,
            register,
            stage,
            child,
        }
    }

    /// Whom the next line asks, where it is a request; that is written where it is to stand, for it is large.
    pub(crate) fn asks(&self, request: &mut Request) -> Option<BrickId>
        ensures some { (b : BrickId) → result ≡ Some b → next_at self.now.stage self.now ≡ Next.Ask b request.new }
        ensures none { result ≡ None → is_ask (next_at self.now.stage self.now) ≡ false }
        ensures allowed { (b : BrickId) → result ≡ Some b → Allows self.now.register (Next.Ask b request.new) }
    {
        self.stays_sound();
        self.ask(request)
    }

    /// The change, where the operation is asked for next.
    pub(crate) fn load(&self) -> Load<'_>
        ensures { CarriesAt self.now.stage result self.now.change }
    {
        match self.stage {
            RemovalStage::Applying => Load::Change(&self.change),
            _ => Load::Nothing,
        }
    }

    /// This request was answered at this position. Where the child is to be listed the rule picks the copy; this is what it has
    /// picked now.
    pub(crate) fn hear<G: Fn(&[Candidate]) -> usize>(
        &mut self,
        brick: BrickId,
        request: &Request,
        answer: &Answer,
        at: u32,
        rule: &ReadRule<G>,
    ) -> Option<BrickId>
        requires rule { IsRule G.Fn rule.now }
        requires more { is_over self.old.stage self.old ≡ false }
        requires asking { is_beginning self.old.stage ≡ false }
        requires asked { next_at self.old.stage self.old ≡ Next.Ask brick request.now }
        ensures picked { RuleAnswers G.Fn rule.now (choices_at self.old.stage answer.now at self.old) result }
        ensures value { self.new ≡ answered (reader_of result) self.old.stage answer.now at self.old }
    {
        let stage = self.stage;
        let told = told_of(answer);
        note(&mut self.register, &Move::Ask(brick, request), &told, at);
        self.child = child_after(stage, brick, &told, &self.register, &self.child);
        self.stage = stage_by(stage, answer, &self.change, &self.register, &self.child);
        picked_at(stage, self.stage, &self.register, &mut self.child, rule)
    }

    /// The change of the next line, where that is a Begin line. Its copy takes memory.
    pub(crate) fn begins(&self) -> Result<Option<Change>, NoMemory>
        ensures some { (change : Change) → result ≡ Ok (Some change) → next_at self.now.stage self.now ≡ Next.Begin change }
        ensures none { result ≡ Ok None → is_ask (next_at self.now.stage self.now) ≡ false → is_over self.now.stage self.now ≡ true }
    {
        match self.stage {
            RemovalStage::Beginning => {
                let change = self.change.copy()?;
                Ok(Some(change))
            }
            _ => Ok(None),
        }
    }

    /// The Begin line was written at this position, where the attempt was to begin.
    pub(crate) fn begun(&mut self, at: u32)
        ensures { self.new ≡ removal_begun at self.old }
    {
        if !self.is_beginning() {
            return;
        }
        note(
            &mut self.register,
            &Move::Begin(&self.change),
            &Told::Done,
            at,
        );
        self.stage = RemovalStage::Preparing;
    }

    /// The reply, where the next line is the end: no lock is left to release. Only the views of a split brain take memory.
    pub(crate) fn end(&self, alloc: Global) -> Result<Option<Reply>, NoMemory>
        ensures some { (reply : Reply) → result ≡ Ok (Some reply) → next_at self.now.stage self.now ≡ Next.End reply }
        ensures none { result ≡ Ok None → is_over self.now.stage self.now ≡ false }
    {
        match self.stage {
            RemovalStage::Closing(why) => {
                if !self.left().is_empty() {
                    return Ok(None);
                }
                let reply = reply_of(alloc, &why, &self.register)?;
                Ok(Some(reply))
            }
            _ => Ok(None),
        }
    }

    /// What the lines so far show.
    pub(crate) fn register(&self) -> &Register
        ensures { result.now ≡ self.now.register }
    {
        &self.register
    }

    /// What the removal keeps at every moment, for those who prove over its value.
    pub(crate) fn stays_sound(&self)
        ensures { Sound self.now }
    {
        let _ = &self.register;
    }

    fn is_beginning(&self) -> bool
        ensures { result ≡ is_beginning self.now.stage }
    {
        matches!(self.stage, RemovalStage::Beginning)
    }

    fn is_over(&self) -> bool
        ensures { result ≡ is_over self.now.stage self.now }
    {
        match self.stage {
            RemovalStage::Closing(_) => self.left().is_empty(),
            _ => false,
        }
    }

    fn left(&self) -> BrickSet
        ensures { result ≡ left self.now.stage self.now }
    {
        left_of(self.stage, &self.register, &self.child)
    }

    fn request(&self) -> Request
        ensures { result ≡ request_at self.now.stage self.now }
    {
        request_of(self.stage, &self.change, &self.register, &self.child)
    }

    fn brick(&self) -> BrickId
        requires { IsAsking self.now.stage self.now }
        ensures number { result.0 ≡ brick_at self.now.stage self.now }
        ensures small { result.0 < 5 }
    {
        match self.stage {
            RemovalStage::Listing => self.child.reader,
            _ => self.left().lowest(),
        }
    }

    fn ask(&self, request: &mut Request) -> Option<BrickId>
        ensures some { (b : BrickId) → result ≡ Some b → next_at self.now.stage self.now ≡ Next.Ask b request.new }
        ensures none { result ≡ None → is_ask (next_at self.now.stage self.now) ≡ false }
    {
        if self.is_beginning() || self.is_over() {
            return None;
        }
        self.stays_sound();
        *request = self.request();
        Some(self.brick())
    }
}

/// The stage after an answer.
fn stage_by(
    stage: RemovalStage,
    answer: &Answer,
    change: &Change,
    r: &Register,
    child: &Child,
) -> RemovalStage
    requires few { r.now.shape.n ≤ 5 }
    requires outside { r.now.inside ≡ false }
    ensures { result ≡ stage_after stage answer.now (record { change = change.now; register = r.now; stage = stage; child = child.now }) }
{
    match stage {
        RemovalStage::Listing => listed(answer, change, r),
        _ => after(stage, r, child),
    }
}
