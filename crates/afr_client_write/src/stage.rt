//! The stages of a write, and what an answer makes of each.
ghost use Rattle.std.specs.Prelude.{◌≡◌, ◌<◌, ◌≤◌, false, not};
ghost use Rattle.afr_client_write.specs.Job.{IsJob, change_of, is_empty};
ghost use Rattle.afr_client_write.specs.Write.{IsWrite, after_walk, at_object, choices_at, first_stage, is_over, next_at, stage_after, stage_begun, walk_after};
ghost use Rattle.afr_client_transaction.specs.Progress.{starting, told_to};
ghost use Rattle.afr_lines.specs.Told.{told_by};
ghost use Rattle.afr_lines.specs.declared.line.Next.{Next};
ghost use Rattle.afr_object.specs.Tables.{is_dir};
ghost use Rattle.afr_client_transaction.specs.Progress as progress;
ghost use Rattle.afr_client_transaction.specs.Sound.{IsUnused};
ghost use Rattle.afr_rule.specs.Choosing.{IsRule};
ghost use Rattle.afr_client_walk.specs.Choosing.{RuleAnswers, reader_of};
ghost use Rattle.afr_client_walk.specs.Stops.{reply_of};
ghost use Rattle.afr_client_walk.specs.Walk.{IsWalk, is_walking};

use crate::job::{WriteJob, change_of, is_empty, is_of_bytes, is_too_large};
use afr_base::{BrickId, Gfid, What};
use afr_client_transaction::Transaction;
use afr_client_walk::{Stop, Walk, WalkStep, stop_reply};
use afr_discipline::Register;
use afr_lines::{Answer, Good, KeptReply, Reply, Request};
use afr_object::Entry;
use afr_rule::{Candidate, ReadRule};
use std::mem;

/// Where a write stands.
#[derive(Drop)]
pub enum WriteStage {
    /// The path is walked.
    Walking(WriteJob),
    /// What the path has led to is changed.
    Changing(Transaction),
    Ending(KeptReply),
}

/// Where a write begins.
pub(crate) fn first(job: WriteJob, walk: &Walk) -> WriteStage
    requires { IsWalk walk.now }
    ensures value { result ≡ first_stage job walk.now }
    ensures kept { IsWrite walk.now result }
{
    let mut stage = ending(Reply::TooLarge);
    put_first(job, walk, &mut stage);
    stage
}

/// The same in the place of another stage: what is too large ends before anything is asked.
pub(crate) fn put_first(job: WriteJob, walk: &Walk, stage: &mut WriteStage)
    requires { IsWalk walk.now }
    ensures value { stage.new ≡ first_stage job walk.now }
    ensures kept { IsWrite walk.now stage.new }
{
    if is_too_large(&job) {
        end(Reply::TooLarge, stage);
    } else {
        leave(job, walk, stage);
    }
}

/// Where a walk leaves the write. The stage is written in its place, since a transaction is large.
#[inline(never)]
fn leave(job: WriteJob, walk: &Walk, stage: &mut WriteStage)
    requires walk { IsWalk walk.now }
    requires fits { IsJob job }
    ensures value { stage.new ≡ after_walk job walk.now }
    ensures kept { IsWrite walk.now stage.new }
{
    match &walk.step {
        WalkStep::Looking(_) | WalkStep::Naming(_) => walk_on(job, stage),
        WalkStep::Arrived => arrive(job, walk.object, &walk.register, stage),
        WalkStep::Stopped(why) => stop(why, stage),
    }
}

/// The path is walked. It stands apart, as the next two do and `begin_change`, so that only what comes to it pays for a frame
/// that holds stages.
#[inline(never)]
fn walk_on(job: WriteJob, stage: &mut WriteStage)
    ensures { stage.new ≡ WriteStage.Walking job }
{
    *stage = WriteStage::Walking(job);
}

#[inline(never)]
fn stop(why: &Stop, stage: &mut WriteStage)
    ensures { stage.new ≡ WriteStage.Ending (reply_of why.now) }
{
    *stage = WriteStage::Ending(stop_reply(why));
}

#[inline(never)]
fn end(reply: Reply, stage: &mut WriteStage)
    ensures { stage.new ≡ WriteStage.Ending reply }
{
    *stage = ending(reply);
}

fn ending(reply: Reply) -> WriteStage
    ensures { result ≡ WriteStage.Ending reply }
{
    WriteStage::Ending(KeptReply::new(reply))
}

fn arrive(job: WriteJob, object: Entry, register: &Register, stage: &mut WriteStage)
    requires fits { IsJob job }
    requires unused { IsUnused register.now }
    requires few { register.now.shape.n ≤ 5 }
    requires some { 0 < register.now.shape.n }
    ensures { stage.new ≡ at_object object register.now job }
{
    if is_of_bytes(&job) && is_directory(object.what) {
        end(Reply::IsDir, stage);
        return;
    }
    if is_empty(&job) {
        end(Reply::Ok(Good::Done), stage);
        return;
    }
    begin_change(job, object.gfid, register, stage);
}

#[inline(never)]
fn begin_change(job: WriteJob, gfid: Gfid, register: &Register, stage: &mut WriteStage)
    requires fits { IsJob job }
    requires some { is_empty job ≡ false }
    requires unused { IsUnused register.now }
    requires few { register.now.shape.n ≤ 5 }
    requires low { 0 < register.now.shape.n }
    ensures { stage.new ≡ WriteStage.Changing (starting (change_of gfid job) register.now) }
{
    let change = change_of(gfid, job);
    *stage = WriteStage::Changing(Transaction::continuing(*register, change));
}

fn is_directory(what: What) -> bool
    ensures { result ≡ is_dir what }
{
    match what {
        What::File => false,
        What::Dir => true,
    }
}

/// The stage hears an answer at this position, which the register of the walk or of the transaction notes. It is written
/// anew only where the walk has ended. Once all copies of a directory on the way were looked at the rule picks one; this is
/// what it has picked now.
pub(crate) fn stage_heard<G: Fn(&[Candidate]) -> usize>(
    walk: &mut Walk,
    stage: &mut WriteStage,
    brick: BrickId,
    request: &Request,
    answer: &Answer,
    at: u32,
    rule: &ReadRule<G>,
) -> Option<BrickId>
    requires rule { IsRule G.Fn rule.now }
    requires sound { IsWrite walk.old stage.old }
    requires more { is_over stage.old ≡ false }
    requires asked { next_at at stage.old walk.old ≡ Next.Ask brick request.now }
    ensures picked { RuleAnswers G.Fn rule.now (choices_at stage.old answer.now walk.old) result }
    ensures walk { walk.new ≡ walk_after (reader_of result) stage.old answer.now at walk.old }
    ensures stage { stage.new ≡ stage_after stage.old answer.now at (walk_after (reader_of result) stage.old answer.now at walk.old) }
    ensures kept { IsWrite walk.new stage.new }
{
    match stage {
        WriteStage::Walking(job) => {
            let picked = walk.hear(brick, request, answer, at, rule);
            if has_ended(walk) {
                let job = mem::replace(job, WriteJob::Cut { len: 0 });
                leave(job, walk, stage);
            }
            picked
        }
        WriteStage::Changing(transaction) => {
            heard(transaction, brick, request, answer, at);
            None
        }
        WriteStage::Ending(_) => None,
    }
}

/// Whether a walk has led to its object, or has stopped.
fn has_ended(walk: &Walk) -> bool
    ensures { result ≡ not (is_walking walk.now.step) }
{
    match &walk.step {
        WalkStep::Looking(_) | WalkStep::Naming(_) => false,
        WalkStep::Arrived | WalkStep::Stopped(_) => true,
    }
}

fn heard(transaction: &mut Transaction, brick: BrickId, request: &Request, answer: &Answer, at: u32)
    requires { progress.next_at transaction.old.stage at transaction.old ≡ Next.Ask brick request.now }
    ensures { transaction.new ≡ told_to (told_by answer.now) at transaction.old }
{
    transaction.hear_answer(brick, request, answer, at);
}

/// The stage hears of a Begin line at this position.
pub(crate) fn stage_begun(stage: &mut WriteStage, at: u32)
    ensures { stage.new ≡ stage_begun stage.old at }
{
    match stage {
        WriteStage::Changing(transaction) => transaction.begun(at),
        _ => {}
    }
}
