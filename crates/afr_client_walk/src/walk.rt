//! Walking a path: each name is read from a good copy of the directory that the names before it lead to, which the read rule
//! picks once all copies were looked at.
ghost use Rattle.std.specs.Prelude.{◌≡◌, ℕ, ◌<◌, ◌≤◌, ◌+◌, IfOk, None, Some, length, false, true};
ghost use Rattle.afr_base.specs.Bricks.{is_nothing};
ghost use Rattle.afr_base.specs.declared.ids.BrickId.{BrickId};
ghost use Rattle.afr_lines.specs.declared.answer.Told.{Told};
ghost use Rattle.afr_lines.specs.declared.line.Next.{Next};
ghost use Rattle.afr_lines.specs.declared.request.Request.{Request};
ghost use Rattle.afr_object.specs.Tables.{root_entry};
ghost use Rattle.afr_choice.specs.Verdict.{verdict_of};
ghost use Rattle.afr_rule.specs.Choosing.{IsRule};
ghost use Rattle.afr_client_walk.specs.Choosing.{RuleAnswers, choices, choices_after, reader_of};
ghost use Rattle.afr_discipline.specs.Free.{AllowsAsk, is_free};
ghost use Rattle.afr_client_walk.specs.Looks.{IsLooks, heard_look, left_to_look};
ghost use Rattle.afr_client_walk.specs.declared.looks.Looks.{Looks};
ghost use Rattle.afr_client_walk.specs.Walk.{IsStep, IsWalk, after_looks, choices_at, choices_of, is_walking, named, next_in, noted, step_at, verdict_step, walk_from, walked, walked_at};

use crate::choosing::{pick_if, reader_of};
use crate::looks::Looks;
use crate::stop::Stop;
use afr_base::{BrickId, Gfid, Kind, NameId, NoMemory, Shape, What};
use afr_choice::{Verdict, judge};
use afr_discipline::{Register, fresh, note_free, renew};
use afr_lines::{Answer, Request};
use afr_object::{Entry, List};
use afr_rule::{Candidate, ReadRule};
use std::alloc::Global;

/// Where a walk stands.
#[derive(Clone, Copy, Debug)]
pub enum WalkStep {
    /// The bricks are looked at, for the directory that was reached.
    Looking(Looks),
    /// The copy that the rule picked is asked for the next name.
    Naming(BrickId),
    /// The path leads to the object.
    Arrived,
    /// The walk has ended early.
    Stopped(Stop),
}

/// A path on its way from the root.
#[derive(Drop)]
pub struct Walk {
    pub shape: Shape,
    pub path: List<NameId>,
    /// How many names were read.
    pub read: usize,
    /// The object that they lead to.
    pub object: Entry,
    pub step: WalkStep,
    /// What the lines so far show.
    pub register: Register,
}

impl Walk {
    /// Nobody was asked yet; a path of no names leads to the root.
    pub fn new(alloc: Global, shape: Shape, path: &[NameId]) -> Result<Walk, NoMemory>
        requires few { shape.n ≤ 5 }
        requires some { 0 < shape.n }
        ensures ok { IfOk result (λ walk. walk ≡ walk_from shape path.now) }
        ensures kept { IfOk result (λ walk. IsWalk walk) }
    {
        Ok(Walk::along(shape, names_of(alloc, path)?))
    }

    /// The same for names that are there, which takes no memory.
    pub fn along(shape: Shape, names: List<NameId>) -> Walk
        requires few { shape.n ≤ 5 }
        requires some { 0 < shape.n }
        ensures value { result ≡ walk_from shape names }
        ensures kept { IsWalk result }
    {
        let root = root();
        let mut step = WalkStep::Arrived;
        put_step(names.len(), 0, root, &mut step);
        Walk {
            shape,
            step,
            path: names,
            read: 0,
            object: root,
            register: fresh(shape),
        }
    }

    /// Another walk begins in this one's place, for a walk is large. It takes no memory.
    pub fn begin_again(&mut self, shape: Shape, names: List<NameId>)
        requires few { shape.n ≤ 5 }
        requires some { 0 < shape.n }
        ensures value { self.new ≡ walk_from shape names }
        ensures kept { IsWalk self.new }
    {
        let root = root();
        self.shape = shape;
        put_step(names.len(), 0, root, &mut self.step);
        self.path = names;
        self.read = 0;
        self.object = root;
        self.register.shape = shape;
        renew(&mut self.register);
    }

    /// Whom it asks next, while the walk goes on; the request is written where it is to stand.
    pub fn asks(&self, request: &mut Request) -> Option<BrickId>
        requires walk { IsWalk self.now }
        ensures some { (b : BrickId) → result ≡ Some b → Next.Ask (next_in self.now).0 (next_in self.now).1 ≡ Next.Ask b request.new }
        ensures walking { (b : BrickId) → result ≡ Some b → is_walking self.now.step ≡ true }
        ensures none { result ≡ None → is_walking self.now.step ≡ false }
        ensures allowed { (b : BrickId) → result ≡ Some b → AllowsAsk self.now.register b request.new }
        ensures small { (b : BrickId) → result ≡ Some b → b.0 < 5 }
    {
        self.ask(request)
    }

    /// The brick has answered what it was asked, at this position. Once all were looked at the rule picks the copy that is read
    /// next; this is what it has picked now.
    pub fn hear<G: Fn(&[Candidate]) -> usize>(
        &mut self,
        brick: BrickId,
        request: &Request,
        answer: &Answer,
        at: u32,
        rule: &ReadRule<G>,
    ) -> Option<BrickId>
        requires rule { IsRule G.Fn rule.now }
        requires walk { IsWalk self.old }
        requires walking { is_walking self.old.step ≡ true }
        requires brick { (next_in self.old).0 ≡ brick }
        requires request { (next_in self.old).1 ≡ request.now }
        ensures picked { RuleAnswers G.Fn rule.now (choices_of answer.now self.old) result }
        ensures value { self.new ≡ walked (reader_of result) answer.now at self.old }
        ensures kept { IsWalk self.new }
    {
        self.note();
        self.go_on(answer, rule)
    }

    /// A look or a read of the same work was answered.
    pub fn note(&mut self)
        requires { IsWalk self.old }
        ensures value { (asked : BrickId × Request) (told : Told) (at : ℕ) → is_free asked.1 ≡ true → self.new ≡ noted asked told at self.old }
        ensures kept { IsWalk self.new }
    {
        note_free(&mut self.register);
    }

    fn ask(&self, request: &mut Request) -> Option<BrickId>
        requires walk { IsWalk self.now }
        ensures some { (b : BrickId) → result ≡ Some b → Next.Ask (next_in self.now).0 (next_in self.now).1 ≡ Next.Ask b request.new }
        ensures walking { (b : BrickId) → result ≡ Some b → is_walking self.now.step ≡ true }
        ensures none { result ≡ None → is_walking self.now.step ≡ false }
    {
        match &self.step {
            WalkStep::Looking(looks) => {
                *request = Request::Look {
                    gfid: self.object.gfid,
                };
                Some(looks.next_brick(self.shape.n))
            }
            WalkStep::Naming(brick) => {
                *request = Request::ReadName {
                    gfid: self.object.gfid,
                    name: *self.path.item(self.read),
                };
                Some(*brick)
            }
            WalkStep::Arrived | WalkStep::Stopped(_) => None,
        }
    }

    fn go_on<G: Fn(&[Candidate]) -> usize>(
        &mut self,
        answer: &Answer,
        rule: &ReadRule<G>,
    ) -> Option<BrickId>
        requires rule { IsRule G.Fn rule.now }
        requires walk { IsWalk self.old }
        ensures picked { RuleAnswers G.Fn rule.now (choices_at self.old.step answer.now self.old) result }
        ensures value { self.new ≡ walked_at (reader_of result) self.old.step answer.now self.old }
        ensures kept { IsWalk self.new }
    {
        match &mut self.step {
            WalkStep::Looking(looks) => {
                looks.hear(self.shape.n, answer);
                if !looks.is_over(self.shape.n) {
                    return None;
                }
                look_over(self.shape, &mut self.step, rule)
            }
            WalkStep::Naming(_) => {
                self.name_heard(answer);
                None
            }
            _ => None,
        }
    }

    fn name_heard(&mut self, answer: &Answer)
        requires { self.old.read < length self.old.path }
        ensures { self.new ≡ named answer.now self.old }
    {
        match answer {
            Answer::Entry(Some(entry)) => {
                let names = self.path.len();
                self.read += 1;
                self.object = *entry;
                put_step(names, self.read, *entry, &mut self.step);
            }
            Answer::Entry(None) => self.step = WalkStep::Stopped(Stop::NoEntry),
            _ => self.step = WalkStep::Stopped(Stop::Failed),
        }
    }
}

/// The directory that every path begins at.
fn root() -> Entry
    ensures { result ≡ root_entry }
{
    Entry {
        gfid: Gfid(1),
        what: What::Dir,
    }
}

/// The names of a path, for a walk of its own.
pub fn names_of(alloc: Global, path: &[NameId]) -> Result<List<NameId>, NoMemory>
    ensures { IfOk result (λ names. names ≡ path.now) }
{
    let mut names = List::new(alloc);
    for name in path {
        names.push(*name)?;
    }
    Ok(names)
}

/// The step after so many names, written in its place. It stands apart, as the next ones do, so that only what comes to it pays
/// for a frame that holds steps.
#[inline(never)]
fn put_step(names: usize, read: usize, object: Entry, step: &mut WalkStep)
    ensures { step.new ≡ step_at names read object }
{
    if read == names {
        *step = WalkStep::Arrived;
        return;
    }
    match object.what {
        What::Dir => *step = WalkStep::Looking(Looks::new()),
        What::File => *step = WalkStep::Stopped(Stop::NotDir),
    }
}

/// All bricks were asked: the step that follows is written, and this is what the rule has picked.
#[inline(never)]
fn look_over<G: Fn(&[Candidate]) -> usize>(
    shape: Shape,
    step: &mut WalkStep,
    rule: &ReadRule<G>,
) -> Option<BrickId>
    requires rule { IsRule G.Fn rule.now }
    requires few { shape.n ≤ 5 }
    requires over { (looks : Looks) → step.old ≡ WalkStep.Looking looks → is_nothing (left_to_look shape.n looks) ≡ true }
    ensures picked { (looks : Looks) → step.old ≡ WalkStep.Looking looks → RuleAnswers G.Fn rule.now (choices_after shape Kind.Names looks) result }
    ensures step { (looks : Looks) → step.old ≡ WalkStep.Looking looks → step.new ≡ after_looks (reader_of result) shape looks }
{
    if let WalkStep::Looking(looks) = step {
        let (verdict, picked) = judged_by(shape, looks, rule);
        put_judged(verdict, reader_of(picked), step);
        return picked;
    }
    None
}

/// The verdict, and what the rule has picked.
fn judged_by<G: Fn(&[Candidate]) -> usize>(
    shape: Shape,
    looks: &Looks,
    rule: &ReadRule<G>,
) -> (Verdict, Option<BrickId>)
    requires rule { IsRule G.Fn rule.now }
    requires few { shape.n ≤ 5 }
    requires over { is_nothing (left_to_look shape.n looks.now) ≡ true }
    ensures picked { RuleAnswers G.Fn rule.now (choices_after shape Kind.Names looks.now) result.1 }
    ensures verdict { result.0 ≡ verdict_of shape looks.now.looked Kind.Names }
{
    let looked = &looks.looked;
    let verdict = judge(&shape, looked, Kind::Names);
    let picked = pick_if(&verdict, &shape, looked, Kind::Names, rule);
    (verdict, picked)
}

fn put_judged(verdict: Verdict, chosen: BrickId, step: &mut WalkStep)
    ensures { (looks : Looks) → step.old ≡ WalkStep.Looking looks → step.new ≡ verdict_step chosen verdict looks.looked.views }
{
    match verdict {
        Verdict::Short => *step = WalkStep::Stopped(Stop::NoQuorum),
        Verdict::Bare => *step = WalkStep::Stopped(Stop::FewCopies),
        Verdict::Split => split(step),
        Verdict::Sources(_) => *step = WalkStep::Naming(chosen),
    }
}

/// Each copy is accused, as the views show.
#[inline(never)]
fn split(step: &mut WalkStep)
    ensures { (looks : Looks) → step.old ≡ WalkStep.Looking looks → step.new ≡ WalkStep.Stopped (Stop.SplitBrain looks.looked.views) }
{
    if let WalkStep::Looking(looks) = step {
        *step = WalkStep::Stopped(Stop::SplitBrain(looks.looked.views));
    }
}
