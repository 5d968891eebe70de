//! The stages of a rename, and what an answer makes of each.
ghost use Rattle.std.specs.Prelude.{◌≡◌, ◌<◌, ◌≤◌, false, not, true, IfOk};
ghost use Rattle.afr_lines.specs.declared.line.Next.{Next};
ghost use Rattle.afr_client_entry.specs.Renames.Rename.{IsRename, IsSound, after_first, after_second, at_directory, choices_at, is_done, is_over, next_at, paths_after, second_begun, stage_after, stage_begun, turned_anew};
ghost use Rattle.afr_client_entry.specs.Renames.Paths.{IsPaths};
ghost use Rattle.afr_rule.specs.Choosing.{IsRule};
ghost use Rattle.afr_client_walk.specs.Choosing.{RuleAnswers, reader_of};
ghost use Rattle.afr_client_walk.specs.Walk.{is_walking};

use crate::Found;
use crate::renaming::paths::{Paths, making_of, reads_new, reads_old, removal_of};
use crate::renaming::refusal::{against_new, against_old, is_acknowledged};
use crate::renaming::under::heard_under;
use crate::under::begun_under;
use afr_base::{BrickId, What};
use afr_client_transaction::{Transaction, begins_again};
use afr_client_walk::{WalkStep, stop_reply};
use afr_lines::{Answer, KeptReply, Reply, Request, Told, told_of};
use afr_rule::{Candidate, ReadRule};

/// Where a rename stands.
#[derive(Drop)]
pub enum RenameStage {
    /// The first path is walked.
    Finding,
    /// The second path is walked to the directory of the new name.
    Walking,
    /// The new name is locked, read and made. Where that is acknowledged and no lock is left, the old name is locked next.
    Making(Transaction, Found),
    /// The old name is locked, read and removed.
    Removing(Transaction, Found),
    Ending(KeptReply),
}

/// Whether the new name stands and its locks are released: the second transaction comes next.
pub(crate) fn is_done(transaction: &Transaction) -> bool
    ensures { result ≡ is_done transaction.now }
{
    transaction.is_over() && is_acknowledged(&transaction.outcome())
}

/// The second transaction as it asks for its first lock.
pub(crate) fn turn(paths: &Paths, making: &Transaction) -> Transaction
    requires few { making.now.register.shape.n ≤ 5 }
    requires some { 0 < making.now.register.shape.n }
    ensures { result ≡ turned_anew paths.now making.now }
{
    Transaction::new(making.register().shape, removal_of(paths))
}

/// Where the first walk leaves the rename.
fn after_first(paths: &Paths) -> RenameStage
    requires { IsPaths paths.now }
    ensures { result ≡ after_first paths.now }
{
    match &paths.first.step {
        WalkStep::Looking(_) | WalkStep::Naming(_) => RenameStage::Finding,
        WalkStep::Arrived => match paths.first.object.what {
            What::Dir => RenameStage::Ending(KeptReply::new(Reply::IsDir)),
            What::File => after_second(paths),
        },
        WalkStep::Stopped(stop) => RenameStage::Ending(stop_reply(stop)),
    }
}

/// Where the second walk leaves it.
fn after_second(paths: &Paths) -> RenameStage
    requires { IsPaths paths.now }
    ensures { result ≡ after_second paths.now }
{
    match &paths.second.step {
        WalkStep::Looking(_) | WalkStep::Naming(_) => RenameStage::Walking,
        WalkStep::Arrived => arrived(paths),
        WalkStep::Stopped(stop) => RenameStage::Ending(stop_reply(stop)),
    }
}

fn arrived(paths: &Paths) -> RenameStage
    requires { IsPaths paths.now }
    ensures { result ≡ at_directory paths.now }
{
    let dir = paths.second.object;
    match dir.what {
        What::Dir => {
            let making = Transaction::continuing(paths.second.register, making_of(paths, dir.gfid));
            RenameStage::Making(making, Found::Unread(BrickId(0)))
        }
        What::File => RenameStage::Ending(KeptReply::new(Reply::NotDir)),
    }
}

/// The stage hears an answer to what it asked, at this position. Once all copies of a directory were looked at the rule picks
/// one; this is what it has picked now.
pub(crate) fn stage_heard<G: Fn(&[Candidate]) -> usize>(
    paths: &mut Paths,
    stage: &mut RenameStage,
    brick: BrickId,
    request: &Request,
    answer: &Answer,
    at: u32,
    rule: &ReadRule<G>,
) -> Option<BrickId>
    requires rule { IsRule G.Fn rule.now }
    requires sound { IsRename paths.old stage.old }
    requires more { is_over stage.old ≡ false }
    requires asked { next_at at stage.old paths.old ≡ Next.Ask brick request.now }
    ensures picked { RuleAnswers G.Fn rule.now (choices_at stage.old answer.now at paths.old) result }
    ensures paths { paths.new ≡ paths_after (reader_of result) stage.old answer.now at paths.old }
    ensures stage { stage.new ≡ stage_after (reader_of result) stage.old answer.now at (paths_after (reader_of result) stage.old answer.now at paths.old) }
    ensures kept { IsRename paths.new stage.new }
{
    match stage {
        RenameStage::Finding => {
            let picked = first_heard(paths, brick, request, answer, at, rule);
            *stage = after_first(paths);
            picked
        }
        RenameStage::Walking => {
            let picked = paths.second.hear(brick, request, answer, at, rule);
            *stage = after_second(paths);
            picked
        }
        RenameStage::Making(making, found) => {
            if is_done(making) {
                *stage = removes(paths, making, &told_of(answer), at);
                return None;
            }
            let why = against_new(answer);
            let asked = reads_new(paths);
            let told = told_of(answer);
            let (after, picked) = heard_under(
                making, *found, why, brick, request, asked, &told, at, rule,
            );
            *found = after;
            picked
        }
        RenameStage::Removing(removing, found) => {
            let why = against_old(paths.first.object.gfid, answer);
            let asked = reads_old(paths);
            let told = told_of(answer);
            let (after, picked) = heard_under(
                removing, *found, why, brick, request, asked, &told, at, rule,
            );
            *found = after;
            picked
        }
        RenameStage::Ending(_) => None,
    }
}

/// The first walk hears an answer. Before it the walk stood at the directory of the name that it asked; the second walk will
/// go on with its register.
fn first_heard<G: Fn(&[Candidate]) -> usize>(
    paths: &mut Paths,
    brick: BrickId,
    request: &Request,
    answer: &Answer,
    at: u32,
    rule: &ReadRule<G>,
) -> Option<BrickId>
    requires rule { IsRule G.Fn rule.now }
    requires paths { IsPaths paths.old }
    requires walking { is_walking paths.old.first.step ≡ true }
    requires asked { next_at at RenameStage.Finding paths.old ≡ Next.Ask brick request.now }
    ensures picked { RuleAnswers G.Fn rule.now (choices_at RenameStage.Finding answer.now at paths.old) result }
    ensures value { paths.new ≡ paths_after (reader_of result) RenameStage.Finding answer.now at paths.old }
    ensures kept { IsPaths paths.new }
{
    paths.dir = paths.first.object.gfid;
    let picked = paths.first.hear(brick, request, answer, at, rule);
    paths.second.register = paths.first.register;
    picked
}

/// The old name's first lock was told this: with it the second transaction begins.
fn removes(paths: &Paths, making: &Transaction, told: &Told, at: u32) -> RenameStage
    requires paths { IsPaths paths.now }
    requires sound { IsSound paths.now (RenameStage.Making making.now Found.Fits) }
    requires done { is_done making.now ≡ true }
    ensures { result ≡ second_begun told.now at paths.now making.now }
{
    let removing = begins_again(making, removal_of(paths), told, at);
    RenameStage::Removing(removing, Found::Unread(BrickId(0)))
}

/// The stage hears of a Begin line at this position.
pub(crate) fn stage_begun(stage: &mut RenameStage, at: u32)
    ensures { stage.new ≡ stage_begun stage.old at }
{
    match stage {
        RenameStage::Making(transaction, found) => begun_under(transaction, *found, at),
        RenameStage::Removing(transaction, found) => begun_under(transaction, *found, at),
        _ => {}
    }
}
