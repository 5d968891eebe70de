//! The stages of a read, and what an answer makes of each.
ghost use Rattle.std.specs.Prelude.{◌≡◌, ◌<◌, ◌≤◌, [], false, not, true};
ghost use Rattle.afr_base.specs.Bricks.{is_nothing};
ghost use Rattle.afr_choice.specs.Verdict.{verdict_of};
ghost use Rattle.afr_client_read.specs.Lookup.{IsLookup, after_walk, asked_at, at_object, choices_at, from_copy, is_asking, next_at, object_judged, object_looked, stage_after, walk_after};
ghost use Rattle.afr_client_read.specs.Job.{kind_of, reply_to};
ghost use Rattle.afr_lines.specs.declared.reply.Reply.{Reply};
ghost use Rattle.afr_lines.specs.Told.{told_by};
ghost use Rattle.afr_lines.specs.declared.line.Next.{Next};
ghost use Rattle.afr_rule.specs.Choosing.{IsRule};
ghost use Rattle.afr_client_walk.specs.Choosing.{RuleAnswers, choices_after, reader_of};
ghost use Rattle.afr_client_walk.specs.Looks.{left_to_look, no_look};
ghost use Rattle.afr_client_walk.specs.Stops.{reply_of};
ghost use Rattle.afr_client_walk.specs.declared.looks.Looks.{Looks};
ghost use Rattle.afr_client_walk.specs.Walk.{IsWalk, is_walking, noted};

use crate::job::{LookupJob, Wanted, kind_of, reply_to};
use afr_base::{BrickId, Kind, Shape, What};
use afr_choice::{Verdict, judge};
use afr_client_walk::{Looks, Stop, Walk, WalkStep, pick_if, reader_of, stop_reply};
use afr_lines::{Answer, Good, KeptReply, Reply, Request};
use afr_object::{Chunk, Entry};
use afr_rule::{Candidate, ReadRule, len_at};
use std::alloc::Global;
use std::mem;

/// Where a read stands.
#[derive(Drop)]
pub enum LookupStage {
    /// The path is walked.
    Walking,
    /// The copies of the object are looked at.
    Looking(Looks),
    /// The copy that the rule picked is read.
    Reading(BrickId, Wanted),
    Ending(KeptReply),
}

/// Where a walk leaves the read.
pub(crate) fn leave(job: LookupJob, walk: &Walk, stage: &mut LookupStage)
    requires { IsWalk walk.now }
    ensures value { stage.new ≡ after_walk job walk.now }
    ensures kept { IsLookup walk.now stage.new }
{
    match &walk.step {
        WalkStep::Looking(_) | WalkStep::Naming(_) => walk_on(stage),
        WalkStep::Arrived => arrive(job, walk.object.what, stage),
        WalkStep::Stopped(why) => stop(why, stage),
    }
}

/// The path is walked. The stage is written in its place, for it is large, and this stands apart, as the next ones do, so that
/// only what comes to it pays for a frame that holds stages.
#[inline(never)]
fn walk_on(stage: &mut LookupStage)
    ensures { stage.new ≡ LookupStage.Walking }
{
    *stage = LookupStage::Walking;
}

#[inline(never)]
fn stop(why: &Stop, stage: &mut LookupStage)
    ensures { stage.new ≡ LookupStage.Ending (reply_of why.now) }
{
    *stage = LookupStage::Ending(stop_reply(why));
}

#[inline(never)]
fn end(reply: Reply, stage: &mut LookupStage)
    ensures { stage.new ≡ LookupStage.Ending reply }
{
    *stage = LookupStage::Ending(KeptReply::new(reply));
}

#[inline(never)]
fn look(stage: &mut LookupStage)
    ensures { stage.new ≡ LookupStage.Looking no_look }
{
    *stage = LookupStage::Looking(Looks::new());
}

#[inline(never)]
fn read(brick: BrickId, content: Wanted, stage: &mut LookupStage)
    ensures { stage.new ≡ LookupStage.Reading brick content }
{
    *stage = LookupStage::Reading(brick, content);
}

fn arrive(job: LookupJob, what: What, stage: &mut LookupStage)
    ensures { stage.new ≡ at_object job what }
{
    match job {
        LookupJob::Read { .. } => look_at_file(what, stage),
        LookupJob::Ls => look_at_dir(what, stage),
        LookupJob::GetAttr { .. } | LookupJob::Stat => look(stage),
    }
}

fn look_at_file(what: What, stage: &mut LookupStage)
    ensures { stage.new ≡ at_object (LookupJob.Read 0 0) what }
{
    match what {
        What::File => look(stage),
        What::Dir => end(Reply::IsDir, stage),
    }
}

fn look_at_dir(what: What, stage: &mut LookupStage)
    ensures { stage.new ≡ at_object LookupJob.Ls what }
{
    match what {
        What::Dir => look(stage),
        What::File => end(Reply::NotDir, stage),
    }
}

/// The stage hears an answer to what it asked, at this position, which the walk's register notes. It is written anew only
/// where the walk, the looks or the read have ended. Once all copies were looked at the rule picks one; this is what it has
/// picked now.
pub(crate) fn stage_heard<G: Fn(&[Candidate]) -> usize>(
    alloc: Global,
    walk: &mut Walk,
    job: LookupJob,
    stage: &mut LookupStage,
    brick: BrickId,
    request: &Request,
    answer: &mut Answer,
    at: u32,
    rule: &ReadRule<G>,
) -> Option<BrickId>
    requires rule { IsRule G.Fn rule.now }
    requires sound { IsLookup walk.old stage.old }
    requires asking { is_asking stage.old ≡ true }
    requires asked { next_at stage.old walk.old ≡ Next.Ask brick request.now }
    ensures picked { RuleAnswers G.Fn rule.now (choices_at stage.old answer.old job walk.old) result }
    ensures walk { walk.new ≡ walk_after (reader_of result) stage.old answer.old at walk.old }
    ensures stage { stage.new ≡ stage_after (reader_of result) stage.old answer.old job (walk_after (reader_of result) stage.old answer.old at walk.old) }
    ensures kept { IsLookup walk.new stage.new }
{
    match stage {
        LookupStage::Walking => {
            let picked = walk.hear(brick, request, answer, at, rule);
            if has_ended(walk) {
                leave(job, walk, stage);
            }
            picked
        }
        LookupStage::Looking(looks) => {
            look_noted(walk, looks, answer, at);
            looks.hear(walk.shape.n, answer);
            if !looks.is_over(walk.shape.n) {
                return None;
            }
            look_over(alloc, job, walk, stage, rule)
        }
        LookupStage::Reading(reader, content) => {
            read_noted(walk, *reader, *content, answer, at);
            end_read(mem::replace(answer, Answer::Done), stage);
            None
        }
        LookupStage::Ending(_) => None,
    }
}

/// The stage after the looks, and what the rule has picked.
fn look_over<G: Fn(&[Candidate]) -> usize>(
    alloc: Global,
    job: LookupJob,
    walk: &Walk,
    stage: &mut LookupStage,
    rule: &ReadRule<G>,
) -> Option<BrickId>
    requires rule { IsRule G.Fn rule.now }
    requires few { walk.now.shape.n ≤ 5 }
    requires over { (looks : Looks) → stage.old ≡ LookupStage.Looking looks → is_nothing (left_to_look walk.now.shape.n looks) ≡ true }
    ensures picked { (looks : Looks) → stage.old ≡ LookupStage.Looking looks → RuleAnswers G.Fn rule.now (choices_after walk.now.shape (kind_of job walk.now.object.what) looks) result }
    ensures stage { (looks : Looks) → stage.old ≡ LookupStage.Looking looks → stage.new ≡ object_looked (reader_of result) walk.now.shape job walk.now.object looks }
{
    if let LookupStage::Looking(looks) = stage {
        let kind = kind_of(job, walk.object.what);
        let (verdict, picked) = judged_by(walk.shape, kind, looks, rule);
        put_judged(alloc, job, walk.object, verdict, reader_of(picked), stage);
        return picked;
    }
    None
}

/// The stage after the read.
fn end_read(answer: Answer, stage: &mut LookupStage)
    ensures { stage.new ≡ LookupStage.Ending (reply_to answer) }
{
    end(reply_to(answer), stage);
}

/// Whether a walk has led to its object, or has stopped.
fn has_ended(walk: &Walk) -> bool
    ensures { result ≡ not (is_walking walk.now.step) }
{
    match &walk.step {
        WalkStep::Looking(_) | WalkStep::Naming(_) => false,
        WalkStep::Arrived | WalkStep::Stopped(_) => true,
    }
}

fn look_noted(walk: &mut Walk, looks: &Looks, answer: &Answer, at: u32)
    requires { IsLookup walk.old (LookupStage.Looking looks.now) }
    ensures walk { walk.new ≡ noted (asked_at (LookupStage.Looking looks.now) walk.old) (told_by answer.now) at walk.old }
    ensures kept { IsLookup walk.new (LookupStage.Looking looks.now) }
{
    walk.note();
}

/// The verdict, where all were asked, and what the rule has picked.
fn judged_by<G: Fn(&[Candidate]) -> usize>(
    shape: Shape,
    kind: Kind,
    looks: &Looks,
    rule: &ReadRule<G>,
) -> (Verdict, Option<BrickId>)
    requires rule { IsRule G.Fn rule.now }
    requires few { shape.n ≤ 5 }
    requires over { is_nothing (left_to_look shape.n looks.now) ≡ true }
    ensures picked { RuleAnswers G.Fn rule.now (choices_after shape kind looks.now) result.1 }
    ensures verdict { result.0 ≡ verdict_of shape looks.now.looked kind }
    ensures small { (reader_of result.1).0 < 5 }
{
    let verdict = judge(&shape, &looks.looked, kind);
    let picked = pick_if(&verdict, &shape, &looks.looked, kind, rule);
    (verdict, picked)
}

fn read_noted(walk: &mut Walk, reader: BrickId, content: Wanted, answer: &Answer, at: u32)
    requires { IsLookup walk.old (LookupStage.Reading reader content) }
    ensures walk { walk.new ≡ noted (asked_at (LookupStage.Reading reader content) walk.old) (told_by answer.now) at walk.old }
    ensures kept { (said : Reply) → IsLookup walk.new (LookupStage.Ending said) }
{
    walk.note();
}

fn put_judged(
    alloc: Global,
    job: LookupJob,
    object: Entry,
    verdict: Verdict,
    chosen: BrickId,
    stage: &mut LookupStage,
)
    requires { chosen.0 < 5 }
    ensures { (looks : Looks) → stage.old ≡ LookupStage.Looking looks → stage.new ≡ object_judged chosen job object verdict looks.looked }
{
    match verdict {
        Verdict::Short => end(Reply::NoQuorum, stage),
        Verdict::Bare => end(Reply::FewCopies, stage),
        Verdict::Split => split(stage),
        Verdict::Sources(_) => ask_copy(alloc, job, object, chosen, stage),
    }
}

/// Each copy is accused, as the views show.
#[inline(never)]
fn split(stage: &mut LookupStage)
    ensures { (looks : Looks) → stage.old ≡ LookupStage.Looking looks → stage.new ≡ LookupStage.Ending (Reply.SplitBrain looks.looked.views) }
{
    if let LookupStage::Looking(looks) = stage {
        *stage = LookupStage::Ending(KeptReply::split(&looks.looked.views));
    }
}

/// The copy that was chosen is read; of some reads the looks have told all.
fn ask_copy(alloc: Global, job: LookupJob, object: Entry, brick: BrickId, stage: &mut LookupStage)
    requires { brick.0 < 5 }
    ensures { (looks : Looks) → stage.old ≡ LookupStage.Looking looks → stage.new ≡ from_copy job object looks.looked brick }
{
    match job {
        LookupJob::Read { len: 0, .. } => end(Reply::Ok(Good::Bytes(Chunk::new(alloc))), stage),
        LookupJob::Read { at, len } => read(brick, Wanted::Bytes { at, len }, stage),
        LookupJob::GetAttr { key } => read(brick, Wanted::Value { key }, stage),
        LookupJob::Ls => read(brick, Wanted::Names, stage),
        LookupJob::Stat => tell(object, brick, stage),
    }
}

fn tell(object: Entry, brick: BrickId, stage: &mut LookupStage)
    requires { brick.0 < 5 }
    ensures { (looks : Looks) → stage.old ≡ LookupStage.Looking looks → stage.new ≡ from_copy LookupJob.Stat object looks.looked brick }
{
    if let LookupStage::Looking(looks) = stage {
        let len = len_at(&looks.looked, brick);
        end(Reply::Ok(Good::Stat { entry: object, len }), stage);
    }
}
