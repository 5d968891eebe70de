//! The stages of a command on a name, and what an answer makes of each.
ghost use Rattle.std.specs.Prelude.{◌≡◌, ◌<◌, ◌≤◌, false, not, true};
ghost use Rattle.afr_client_entry.specs.Entry.{IsEntry, IsToRemove, after_walk, at_directory, child_after, choices_at, choices_removing, choices_under, found_after, found_by, is_over, next_at, next_under, offered, progress_after, reads_name, removal_after, settled, stage_after, stage_begun, walk_after};
ghost use Rattle.afr_client_entry.specs.Job.{change_of, ruled_out};
ghost use Rattle.afr_lines.specs.Areas.{kind_for};
ghost use Rattle.afr_lines.specs.declared.line.Next.{Next};
ghost use Rattle.afr_client_entry.specs.Removals.Removal as removing_of;
ghost use Rattle.afr_client_entry.specs.Removals.Removal.{removing};
ghost use Rattle.afr_client_transaction.specs.Progress as progress;
ghost use Rattle.afr_client_transaction.specs.Progress.{is_beginning};
ghost use Rattle.afr_client_transaction.specs.Sound.{IsUnused};
ghost use Rattle.afr_rule.specs.Choosing.{IsRule};
ghost use Rattle.afr_client_walk.specs.Choosing.{RuleAnswers, reader_of};
ghost use Rattle.afr_client_walk.specs.Walk.{IsWalk, is_walking};

use crate::job::{EntryJob, change_of, name_of};
use crate::refusal::{Refusal, child_by, ruled_out};
use crate::removing::Removal;
use crate::under::begun_under;
use afr_base::{BrickId, Gfid, Kind, What};
use afr_client_transaction::Transaction;
use afr_client_walk::{Walk, WalkStep, pick, reader_of, stop_reply};
use afr_discipline::Register;
use afr_lines::{Answer, KeptReply, Reply, Request, Told, told_of};
use afr_object::Entry;
use afr_rule::{Candidate, ReadRule};

/// What the name was found to be under its locks, before the attempt.
#[derive(Clone, Copy, Debug)]
pub enum Found {
    /// Nobody has told yet, and where the locks or the looks have failed, nobody is asked. Once the looks are over this is the
    /// copy to ask, which the rule picked then.
    Unread(BrickId),
    /// The change goes on.
    Fits,
    /// The change is ruled out.
    Refused(Refusal),
}

/// Where a command on a name stands.
#[derive(Drop)]
pub enum EntryStage {
    /// The path to the directory is walked.
    Walking,
    /// The name is locked, read and changed.
    Changing(Transaction, Found),
    /// The directory that the name leads to is locked too, and removed.
    Removes(Removal),
    Ending(KeptReply),
}

/// Where a walk leaves the command.
pub(crate) fn left_by(job: EntryJob, walk: &Walk) -> EntryStage
    requires { IsWalk walk.now }
    ensures value { result ≡ after_walk job walk.now }
    ensures kept { IsEntry walk.now job result }
{
    match &walk.step {
        WalkStep::Looking(_) | WalkStep::Naming(_) => EntryStage::Walking,
        WalkStep::Arrived => arrived(job, walk.object, walk.register),
        WalkStep::Stopped(stop) => EntryStage::Ending(stop_reply(stop)),
    }
}

/// The stage after the walk. It stands apart, so that only the answer that ends a walk pays for a frame that holds a stage.
#[inline(never)]
fn leave(job: EntryJob, walk: &Walk, stage: &mut EntryStage)
    requires { IsWalk walk.now }
    ensures value { stage.new ≡ after_walk job walk.now }
    ensures kept { IsEntry walk.now job stage.new }
{
    *stage = left_by(job, walk);
}

fn arrived(job: EntryJob, dir: Entry, register: Register) -> EntryStage
    requires unused { IsUnused register }
    requires few { register.shape.n ≤ 5 }
    requires some { 0 < register.shape.n }
    ensures { result ≡ at_directory dir register job }
{
    match dir.what {
        What::Dir => {
            let unread = Found::Unread(BrickId(0));
            EntryStage::Changing(begins(job, dir.gfid, register), unread)
        }
        What::File => EntryStage::Ending(KeptReply::new(Reply::NotDir)),
    }
}

fn begins(job: EntryJob, dir: Gfid, register: Register) -> Transaction
    requires unused { IsUnused register }
    requires few { register.shape.n ≤ 5 }
    requires some { 0 < register.shape.n }
    ensures { result ≡ progress.starting (change_of dir job) register }
{
    Transaction::continuing(register, change_of(dir, job))
}

pub(crate) fn reads_name(job: EntryJob, walk: &Walk) -> Request
    ensures { result ≡ reads_name job walk.now }
{
    Request::ReadName {
        gfid: walk.object.gfid,
        name: name_of(job),
    }
}

/// The stage hears an answer to what it asked, at this position, which the register of the walk or of the transaction notes.
/// It is written anew only where the walk has ended. Once all copies of a directory were looked at the rule picks one; this is
/// what it has picked now.
pub(crate) fn stage_heard<G: Fn(&[Candidate]) -> usize>(
    walk: &mut Walk,
    job: EntryJob,
    stage: &mut EntryStage,
    brick: BrickId,
    request: &Request,
    answer: &Answer,
    at: u32,
    rule: &ReadRule<G>,
) -> Option<BrickId>
    requires rule { IsRule G.Fn rule.now }
    requires sound { IsEntry walk.old job stage.old }
    requires more { is_over stage.old ≡ false }
    requires asked { next_at at stage.old job walk.old ≡ Next.Ask brick request.now }
    ensures picked { RuleAnswers G.Fn rule.now (choices_at stage.old answer.now at walk.old) result }
    ensures walk { walk.new ≡ walk_after (reader_of result) stage.old answer.now at walk.old }
    ensures stage { stage.new ≡ stage_after (reader_of result) stage.old answer.now at job (walk_after (reader_of result) stage.old answer.now at walk.old) }
    ensures kept { IsEntry walk.new job stage.new }
{
    match stage {
        EntryStage::Walking => {
            let picked = walk.hear(brick, request, answer, at, rule);
            if has_ended(walk) {
                leave(job, walk, stage);
            }
            picked
        }
        EntryStage::Changing(transaction, found) => {
            let child = child_after(*found, transaction, job, answer);
            let (after, picked) = change_heard(
                walk,
                job,
                transaction,
                *found,
                brick,
                request,
                answer,
                at,
                rule,
            );
            *found = after;
            if let Some(child) = child {
                *stage = removes(walk, job, transaction, child);
            }
            picked
        }
        EntryStage::Removes(removal) => removal_heard(removal, brick, request, answer, at, rule),
        EntryStage::Ending(_) => None,
    }
}

/// Whether a walk has led to its object, or has stopped.
fn has_ended(walk: &Walk) -> bool
    ensures { result ≡ not (is_walking walk.now.step) }
{
    match &walk.step {
        WalkStep::Looking(_) | WalkStep::Naming(_) => false,
        WalkStep::Arrived | WalkStep::Stopped(_) => true,
    }
}

/// The directory that the name was found to lead to, where it is to be removed.
fn child_after(
    found: Found,
    transaction: &Transaction,
    job: EntryJob,
    answer: &Answer,
) -> Option<Gfid>
    ensures { result ≡ child_after found answer.now job transaction.now.stage }
{
    match found {
        Found::Unread(_) => {
            if transaction.is_beginning() {
                child_by(job, answer)
            } else {
                None
            }
        }
        Found::Fits | Found::Refused(_) => None,
    }
}

/// A removal goes on to the directory itself.
fn removes(walk: &Walk, job: EntryJob, transaction: &Transaction, child: Gfid) -> EntryStage
    requires { IsToRemove walk.now job transaction.now }
    ensures { result ≡ EntryStage.Removes (removing transaction.now.change transaction.now.register child) }
{
    let register = *transaction.register();
    EntryStage::Removes(Removal::new(register, change_of(walk.object.gfid, job), child))
}

fn removal_heard<G: Fn(&[Candidate]) -> usize>(
    removal: &mut Removal,
    brick: BrickId,
    request: &Request,
    answer: &Answer,
    at: u32,
    rule: &ReadRule<G>,
) -> Option<BrickId>
    requires rule { IsRule G.Fn rule.now }
    requires more { removing_of.is_over removal.old.stage removal.old ≡ false }
    requires asked { removing_of.next_at removal.old.stage removal.old ≡ Next.Ask brick request.now }
    ensures picked { RuleAnswers G.Fn rule.now (choices_removing answer.now at removal.old) result }
    ensures value { removal.new ≡ removal_after (reader_of result) answer.now at removal.old }
{
    removal.hear(brick, request, answer, at, rule)
}

/// The transaction hears an answer, of which the name's tells what the name was found to be. Beside that comes what the rule
/// has picked.
fn change_heard<G: Fn(&[Candidate]) -> usize>(
    walk: &Walk,
    job: EntryJob,
    transaction: &mut Transaction,
    found: Found,
    brick: BrickId,
    request: &Request,
    answer: &Answer,
    at: u32,
    rule: &ReadRule<G>,
) -> (Found, Option<BrickId>)
    requires rule { IsRule G.Fn rule.now }
    requires sound { IsEntry walk.now job (EntryStage.Changing transaction.old found) }
    requires more { progress.is_over transaction.old.stage transaction.old ≡ false }
    requires asked { next_under found at job walk.now transaction.old ≡ Next.Ask brick request.now }
    ensures transaction { transaction.new ≡ progress_after found answer.now at job walk.now transaction.old }
    ensures picked { RuleAnswers G.Fn rule.now (choices_under found answer.now at transaction.old) result.1 }
    ensures found { result.0 ≡ found_after (reader_of result.1) found answer.now job transaction.old.stage }
{
    match found {
        Found::Unread(reader) => unread_heard(
            walk,
            job,
            transaction,
            reader,
            brick,
            request,
            answer,
            at,
            rule,
        ),
        Found::Fits | Found::Refused(_) => {
            let told = told_of(answer);
            hears(transaction, brick, request, &told, at);
            (found, None)
        }
    }
}

/// The transaction hears what it asked.
pub(crate) fn hears(
    transaction: &mut Transaction,
    brick: BrickId,
    request: &Request,
    told: &Told,
    at: u32,
)
    requires { progress.next_at transaction.old.stage at transaction.old ≡ Next.Ask brick request.now }
    ensures asked { is_beginning transaction.old.stage ≡ false }
    ensures value { transaction.new ≡ progress.fed transaction.old.stage told.now at transaction.old }
{
    transaction.hear(brick, request, told, at);
}

fn unread_heard<G: Fn(&[Candidate]) -> usize>(
    walk: &Walk,
    job: EntryJob,
    transaction: &mut Transaction,
    reader: BrickId,
    brick: BrickId,
    request: &Request,
    answer: &Answer,
    at: u32,
    rule: &ReadRule<G>,
) -> (Found, Option<BrickId>)
    requires rule { IsRule G.Fn rule.now }
    requires sound { IsEntry walk.now job (EntryStage.Changing transaction.old (Found.Unread reader)) }
    requires more { progress.is_over transaction.old.stage transaction.old ≡ false }
    requires asked { next_under (Found.Unread reader) at job walk.now transaction.old ≡ Next.Ask brick request.now }
    ensures transaction { transaction.new ≡ progress_after (Found.Unread reader) answer.now at job walk.now transaction.old }
    ensures picked { RuleAnswers G.Fn rule.now (choices_under (Found.Unread reader) answer.now at transaction.old) result.1 }
    ensures found { result.0 ≡ found_after (reader_of result.1) (Found.Unread reader) answer.now job transaction.old.stage }
{
    let told = told_of(answer);
    if !transaction.is_beginning() {
        hears(transaction, brick, request, &told, at);
        let picked = picked_under(transaction, rule);
        return (Found::Unread(reader_of(picked)), picked);
    }
    transaction.note_read(brick, request, &told, at);
    let why = ruled_out(job, answer);
    (settle(transaction, why), None)
}

/// Once the looks under the locks are over the rule picks the copy of the directory that is asked for the name.
pub(crate) fn picked_under<G: Fn(&[Candidate]) -> usize>(
    transaction: &Transaction,
    rule: &ReadRule<G>,
) -> Option<BrickId>
    requires rule { IsRule G.Fn rule.now }
    requires names { kind_for transaction.now.change ≡ Kind.Names }
    ensures { RuleAnswers G.Fn rule.now (offered transaction.now) result }
{
    if !transaction.is_beginning() {
        return None;
    }
    transaction.stays_sound();
    let r = transaction.register();
    Some(pick(&r.shape, &r.looked, Kind::Names, rule))
}

/// A change that is ruled out is given up.
pub(crate) fn settle(transaction: &mut Transaction, why: Option<Refusal>) -> Found
    requires { is_beginning transaction.old.stage ≡ true }
    ensures transaction { transaction.new ≡ settled why transaction.old }
    ensures found { result ≡ found_by why }
{
    match why {
        Some(why) => {
            transaction.give_up();
            Found::Refused(why)
        }
        None => Found::Fits,
    }
}

/// The stage hears of a Begin line at this position.
pub(crate) fn stage_begun(stage: &mut EntryStage, at: u32)
    ensures { stage.new ≡ stage_begun stage.old at }
{
    match stage {
        EntryStage::Changing(transaction, found) => begun_under(transaction, *found, at),
        EntryStage::Removes(removal) => removal.begun(at),
        _ => {}
    }
}
