//! A round: what it asks next, and what it makes of the answers.
ghost use Rattle.std.specs.Prelude.{◌≡◌, ◌<◌, ◌≤◌, true, IfOk, OnOk, OnErr, Some, is_some, option_map};
ghost use Rattle.afr_base.specs.declared.ids.Gfid.{Gfid};
ghost use Rattle.afr_base.specs.declared.ids.Kind.{Kind};
ghost use Rattle.afr_lines.specs.declared.line.Next.{Next};
ghost use Rattle.afr_lines.specs.declared.reply.HealReply.{HealReply};
ghost use Rattle.afr_rule.specs.Choosing.{IsRule};
ghost use Rattle.afr_heal_round.specs.List.Round.{next_due, without_next};
ghost use Rattle.afr_heal_round.specs.Rounding.{CanHear, CarriesNext, Comes, HealComes, IsFed, IsStaged, begun, heal_at, healed, indexed, is_beginning, is_ending, made_ready, next_of, reply_of, round_from, round_given, round_indexed, stage_due, stage_given, stage_indexed, task_from};

use crate::coming::RoundComing;
use crate::due_list::Round;
use crate::stage::RoundStage;
use afr_base::{BrickId, Gfid, Kind, NoMemory, Shape, What};
use afr_discipline::each_note_stands;
use afr_heal::Coming;
use afr_heal_machine::HealMachine;
use afr_lines::{Answer, Good, HealReply, Reply, Request};
use afr_object::{List, Load};
use afr_rule::{Candidate, SourceRule};
use std::alloc::Global;
use std::marker::Model;
use std::mem;

/// A round of a healer.
#[derive(Drop)]
pub struct RoundMachine {
    alloc: Global,
    shape: Shape,
    round: Round,
    stage: RoundStage,
}

impl Model for RoundMachine {
    ghost use Rattle.afr_heal_round.specs.Rounding.{Rounding, IsRounding};

    ghost Value = { Rounding };

    ghost view = { λ m. record { shape = m.shape; round = m.round; stage = m.stage } };

    ghost invariant = { λ m. IsRounding (record { shape = m.shape; round = m.round; stage = m.stage }) };
}

impl RoundMachine {
    /// A round over the index of this brick, which heals what it lists, or is over with its list. It takes no memory.
    pub fn new(alloc: Global, shape: Shape, heals: bool, brick: BrickId) -> RoundMachine
        requires few { shape.n ≤ 5 }
        requires within { brick.0 < shape.n }
        ensures { result ≡ round_from shape heals brick }
    {
        RoundMachine {
            alloc,
            shape,
            round: Round::new(brick),
            stage: RoundStage::Asking { heals },
        }
    }

    /// The heals of one object, of which another healer's round was given the list.
    pub fn task(
        alloc: Global,
        shape: Shape,
        gfid: Gfid,
        what: What,
    ) -> Result<RoundMachine, NoMemory>
        requires few { shape.n ≤ 5 }
        requires some { 0 < shape.n }
        ensures { IfOk result (λ machine. machine ≡ task_from shape (gfid, what)) }
    {
        let mut list = List::new(alloc);
        list.push((gfid, what))?;
        let mut round = Round::new(BrickId(0));
        round.give_list(list);
        let stage = stage_due(alloc, shape, &mut round);
        Ok(RoundMachine {
            alloc,
            shape,
            round,
            stage,
        })
    }

    /// Takes the memory of the coming move.
    pub fn ready(&mut self) -> Result<(), NoMemory>
        ensures ok { OnOk result (self.new ≡ made_ready self.old) }
        ensures err { OnErr result (self.new ≡ self.old) }
    {
        match &mut self.stage {
            RoundStage::Healing(heal) => heal.ready(),
            _ => Ok(()),
        }
    }

    /// What the next line is; a request is written where it is to stand.
    pub fn asks(&self, request: &mut Request) -> RoundComing
        ensures { Comes result request.new (next_of self.now) }
    {
        match &self.stage {
            RoundStage::Asking { .. } => {
                *request = Request::Index;
                RoundComing::Ask(self.round.brick())
            }
            RoundStage::Healing(heal) => heal_asks(heal, request),
            RoundStage::Over { .. } => RoundComing::End,
        }
    }

    /// The reply of the heal's end. Only the views of a split take memory.
    pub fn heal_end(&self) -> Result<HealReply, NoMemory>
        ensures { IfOk result (λ reply. (g : Gfid) (kind : Kind) (said : HealReply) → next_of self.now ≡ Next.HealEnd g kind said → reply ≡ said) }
    {
        match &self.stage {
            RoundStage::Healing(heal) => heal.end(),
            _ => Ok(HealReply::Failed),
        }
    }

    /// The reply of the round: it fails where its index was refused.
    pub fn end(&self) -> Reply
        ensures { (said : Reply) → next_of self.now ≡ Next.End said → result ≡ said }
    {
        match &self.stage {
            RoundStage::Over { refused } => ending(*refused),
            _ => ending(false),
        }
    }

    /// What a heal read, which goes with a repair.
    pub fn load(&self) -> Load<'_>
        ensures { CarriesNext self.now result }
    {
        match &self.stage {
            RoundStage::Healing(heal) => heal.load(),
            _ => Load::Nothing,
        }
    }

    /// The request was written at this position, and the brick has answered. What a read gave is taken out of the answer.
    pub fn hear<F: Fn(&[Candidate]) -> usize>(
        &mut self,
        brick: BrickId,
        request: &Request,
        answer: &mut Answer,
        at: u32,
        rule: &SourceRule<F>,
    )
        requires rule { IsRule F.Fn rule.now }
        requires asked { next_of self.old ≡ Next.Ask brick request.now }
        requires can { CanHear self.old answer.old }
        ensures { IsFed F.Fn rule.now answer.old at self.old self.new }
    {
        match &mut self.stage {
            RoundStage::Asking { heals } => {
                let heals = *heals;
                self.hear_index(heals, answer);
            }
            RoundStage::Healing(heal) => {
                each_note_stands();
                heal.hear(brick, request, answer, at, rule);
                heal.stays_sound();
            }
            RoundStage::Over { .. } => {}
        }
    }

    /// The index was answered. It stands apart, so that only such an answer pays for a frame that holds a whole heal.
    #[inline(never)]
    fn hear_index(&mut self, heals: bool, answer: &mut Answer)
        ensures { self.new ≡ indexed heals answer.old self.old }
    {
        self.stage = indexed(self.alloc, self.shape, heals, &mut self.round, answer);
    }

    /// The HealBegin line of a heal's part was written at this position.
    pub fn begun(&mut self, at: u32)
        requires { is_beginning (next_of self.old) ≡ true }
        ensures { self.new ≡ begun at self.old }
    {
        match &mut self.stage {
            RoundStage::Healing(heal) => {
                each_note_stands();
                heal.begun(at);
                heal.stays_sound();
            }
            _ => {}
        }
    }

    /// The HealEnd line was written: the next heal of the list begins, or the round is over.
    pub fn healed(&mut self)
        requires { is_ending (next_of self.old) ≡ true }
        ensures { self.new ≡ healed self.old }
    {
        go_on(self.shape, &mut self.round, &mut self.stage);
    }

    /// The heal that the round is at.
    pub fn heal(&self) -> Option<&HealMachine>
        ensures { option_map (λ heal. heal.now) result ≡ heal_at self.now.stage }
    {
        match &self.stage {
            RoundStage::Healing(heal) => Some(heal),
            RoundStage::Asking { .. } | RoundStage::Over { .. } => None,
        }
    }
}

/// The next line of a heal, as its round says it.
fn heal_asks(heal: &HealMachine, request: &mut Request) -> RoundComing
    ensures { HealComes result request.new heal.now }
{
    match heal.asks(request) {
        Coming::Ask(brick) => RoundComing::Ask(brick),
        Coming::Begin => RoundComing::Begin(heal.gfid(), heal.kind()),
        Coming::End => RoundComing::HealEnd(heal.gfid(), heal.kind()),
    }
}

/// The index gave its list, or it was refused.
fn indexed(
    alloc: Global,
    shape: Shape,
    heals: bool,
    round: &mut Round,
    answer: &mut Answer,
) -> RoundStage
    requires few { shape.n ≤ 5 }
    requires some { 0 < shape.n }
    ensures stage { result ≡ stage_indexed heals shape answer.old round.old }
    ensures staged { IsStaged shape result }
    ensures round { round.new ≡ round_indexed heals answer.old round.old }
{
    match mem::replace(answer, Answer::Done) {
        Answer::Index(list) => {
            round.give_list(list);
            given(alloc, shape, heals, round)
        }
        _ => RoundStage::Over { refused: true },
    }
}

/// The list is gone through, or the round is over.
fn given(alloc: Global, shape: Shape, heals: bool, round: &mut Round) -> RoundStage
    requires few { shape.n ≤ 5 }
    requires some { 0 < shape.n }
    ensures stage { result ≡ stage_given heals shape round.old }
    ensures staged { IsStaged shape result }
    ensures round { round.new ≡ round_given heals round.old }
{
    if heals {
        stage_due(alloc, shape, round)
    } else {
        RoundStage::Over { refused: false }
    }
}

/// The next heal of the list, from its beginning, or the end.
fn stage_due(alloc: Global, shape: Shape, round: &mut Round) -> RoundStage
    requires few { shape.n ≤ 5 }
    requires some { 0 < shape.n }
    ensures stage { result ≡ stage_due shape (next_due round.old) }
    ensures staged { IsStaged shape result }
    ensures round { round.new ≡ without_next round.old }
{
    match round.next_heal() {
        Some((gfid, kind)) => RoundStage::Healing(HealMachine::new(alloc, shape, gfid, kind)),
        None => RoundStage::Over { refused: false },
    }
}

/// The next heal of the list begins in the place of the last one, or the round is over.
fn go_on(_shape: Shape, round: &mut Round, stage: &mut RoundStage)
    requires few { _shape.n ≤ 5 }
    requires some { 0 < _shape.n }
    requires healing { is_some (heal_at stage.old) ≡ true }
    requires staged { IsStaged _shape stage.old }
    ensures stage { stage.new ≡ stage_due _shape (next_due round.old) }
    ensures staged { IsStaged _shape stage.new }
    ensures round { round.new ≡ without_next round.old }
{
    match round.next_heal() {
        Some((gfid, kind)) => begin_next(_shape, gfid, kind, stage),
        None => *stage = RoundStage::Over { refused: false },
    }
}

fn begin_next(_shape: Shape, gfid: Gfid, kind: Kind, stage: &mut RoundStage)
    requires few { _shape.n ≤ 5 }
    requires some { 0 < _shape.n }
    requires healing { is_some (heal_at stage.old) ≡ true }
    requires staged { IsStaged _shape stage.old }
    ensures stage { stage.new ≡ stage_due _shape (Some (gfid, kind)) }
    ensures staged { IsStaged _shape stage.new }
{
    match stage {
        RoundStage::Healing(heal) => {
            heal.begin_again(gfid, kind);
            heal.stays_sound();
        }
        _ => {}
    }
}

/// A round fails where its index was refused.
fn ending(refused: bool) -> Reply
    ensures { result ≡ reply_of refused }
{
    if refused {
        Reply::Failed
    } else {
        Reply::Ok(Good::Done)
    }
}
