//! The stages of a removal: whom each still asks, for what, and which stage follows.
ghost use Rattle.std.specs.Prelude.{◌≡◌, ◌≤◌, ◌<◌, false, if◌then◌else◌, IfOk};
ghost use Rattle.afr_base.specs.Bricks.{below, is_nothing, minus};
ghost use Rattle.afr_base.specs.declared.ids.Kind.TheVariants.{Names};
ghost use Rattle.afr_discipline.specs.declared.register.Register.{Register};
ghost use Rattle.afr_lines.specs.declared.answer.Told.{Told};
ghost use Rattle.afr_object.specs.Tables.{object_of};
ghost use Rattle.afr_choice.specs.Verdict.{good_copies};
ghost use Rattle.afr_client_entry.specs.Removals.Removal.{against, child_after, child_reads, gone_on, has_takers, left_in, listed, offered, offered_after, or_close, reply_of, request_in, unlocks};
ghost use Rattle.afr_rule.specs.Choosing.{IsRule};
ghost use Rattle.afr_client_transaction.specs.Progress.{enough, may_start, number_in};
ghost use Rattle.afr_client_walk.specs.Choosing.{RuleAnswers, reader_of};

use crate::removing::child::{Child, both_held, takers_of};
use afr_base::{BrickId, BrickSet, Kind, NoMemory, Shape};
use afr_choice::{Looked, good, holders};
use afr_client_transaction::area_of;
use afr_client_walk::{pick, reader_of};
use afr_discipline::{Move, Register, Step, asked_at, begun, may, suffices};
use afr_lines::{Answer, Area, Domain, Good, Reply, Request, Told};
use afr_object::{Change, View, Views, object_of};
use afr_rule::{Candidate, ReadRule};
use std::alloc::Global;

/// Why a removal releases its locks.
#[derive(Clone, Copy, Debug)]
pub enum RemovalEnding {
    /// The attempt is past, and the bricks that have done post-op are counted.
    Counted,
    /// Fewer than a majority, or none with a good copy, hold both locks or have answered the looks at the child.
    NoQuorum,
    /// Fewer than a majority have the child.
    FewCopies,
    /// Each copy of the child is accused, as these views show.
    SplitBrain([Option<View>; 5]),
    /// The child has a name.
    NotEmpty,
    /// The list was refused.
    Failed,
}

/// Where a removal stands.
#[derive(Clone, Copy, Debug)]
pub enum RemovalStage {
    /// The whole child is locked.
    Locking,
    /// The child is looked at under both locks.
    Looking,
    /// The copy of the child that the rule picked is listed.
    Listing,
    /// The next line gives the attempt its number.
    Beginning,
    /// Pre-op on the directory.
    Preparing,
    /// The operation.
    Applying,
    /// Post-op.
    Posting,
    /// The locks are released, those of the child first.
    Closing(RemovalEnding),
}

/// Who is still to be asked.
pub(crate) fn left_of(stage: RemovalStage, r: &Register, child: &Child) -> BrickSet
    ensures { result ≡ left_in stage r.now child.now }
{
    match stage {
        RemovalStage::Locking => r.held.minus(child.lock_asked),
        RemovalStage::Looking => both_held(r).minus(child.look_asked),
        RemovalStage::Listing => BrickSet::none(),
        RemovalStage::Beginning => BrickSet::none(),
        RemovalStage::Preparing => child.takers.minus(asked_at(r, Step::Pres)),
        RemovalStage::Applying => r.pre.minus(asked_at(r, Step::Applies)),
        RemovalStage::Posting => r.done.minus(asked_at(r, Step::Posts)),
        RemovalStage::Closing(_) => to_unlock(r),
    }
}

/// The child's lock goes first.
fn to_unlock(r: &Register) -> BrickSet
    ensures { result ≡ (if is_nothing r.now.second_held then r.now.held else r.now.second_held) }
{
    if r.second_held.is_empty() {
        r.held
    } else {
        r.second_held
    }
}

/// What is asked.
pub(crate) fn request_of(
    stage: RemovalStage,
    change: &Change,
    r: &Register,
    child: &Child,
) -> Request
    requires { r.now.shape.n ≤ 5 }
    ensures { result ≡ request_in stage change.now r.now child.now }
{
    match stage {
        RemovalStage::Locking => Request::Lock {
            domain: Domain::Work,
            area: child.whole(),
        },
        RemovalStage::Looking => Request::Look { gfid: child.gfid },
        RemovalStage::Listing => Request::List { gfid: child.gfid },
        RemovalStage::Beginning => Request::List { gfid: child.gfid },
        RemovalStage::Preparing => Request::Pre {
            gfid: object_of(change),
            kind: Kind::Names,
        },
        RemovalStage::Applying => Request::Apply {
            attempt: attempt_of(r),
        },
        RemovalStage::Posting => post_op_request(change, r),
        RemovalStage::Closing(_) => Request::Unlock {
            domain: Domain::Work,
            area: unlocks(change, r, child),
        },
    }
}

/// Post-op accuses each brick that hasn't done the operation.
fn post_op_request(change: &Change, r: &Register) -> Request
    requires { r.now.shape.n ≤ 5 }
    ensures { result ≡ Request.Post (number_in r.now.begun) (object_of change.now) Names (minus (below r.now.shape.n) r.now.done) }
{
    Request::Post {
        attempt: attempt_of(r),
        gfid: object_of(change),
        kind: Kind::Names,
        missed: BrickSet::all(r.shape.n).minus(r.done),
    }
}

fn unlocks(change: &Change, r: &Register, child: &Child) -> Area
    ensures { result ≡ unlocks change.now r.now child.now }
{
    if r.second_held.is_empty() {
        area_of(change)
    } else {
        child.whole()
    }
}

/// The number of the attempt, which is the position of its Begin line.
fn attempt_of(r: &Register) -> u32
    ensures { result ≡ number_in r.now.begun }
{
    match begun(r) {
        Some(at) => at,
        None => 0,
    }
}

/// What is known of the child, with the brick that has answered now; this is the register since.
pub(crate) fn child_after(
    stage: RemovalStage,
    b: BrickId,
    told: &Told,
    r: &Register,
    child: &Child,
) -> Child
    requires { b.0 < 5 }
    ensures { result ≡ child_after stage b.0 told.now r.now child.now }
{
    match stage {
        RemovalStage::Locking => child.locked(b, told, r),
        RemovalStage::Looking => child.seen(b, told, r),
        RemovalStage::Listing => *child,
        RemovalStage::Beginning => *child,
        RemovalStage::Preparing => *child,
        RemovalStage::Applying => *child,
        RemovalStage::Posting => *child,
        RemovalStage::Closing(_) => *child,
    }
}

/// Whether the holders of the directory with both locks are a majority with a good copy.
fn has_takers(r: &Register) -> bool
    requires { r.now.shape.n ≤ 5 }
    ensures { result ≡ has_takers r.now }
{
    is_enough(r, takers_of(r))
}

fn is_enough(r: &Register, set: BrickSet) -> bool
    requires { r.now.shape.n ≤ 5 }
    ensures { result ≡ enough r.now Names set }
{
    suffices(r.shape, &r.looked, Kind::Names, set)
}

fn choose(enough: bool, stage: RemovalStage, why: RemovalEnding) -> RemovalStage
    ensures { result ≡ (if enough then stage else RemovalStage.Closing why) }
{
    if enough {
        stage
    } else {
        RemovalStage::Closing(why)
    }
}

/// What the looks at the child come to: the child is listed, or rules the removal out.
fn judged(shape: &Shape, looked: &Looked) -> RemovalStage
    requires { shape.now.n ≤ 5 }
    ensures { result ≡ or_close (against shape.now looked.now) RemovalStage.Listing }
{
    if !looked.reached.has_quorum(shape.n) {
        RemovalStage::Closing(RemovalEnding::NoQuorum)
    } else if !holders(looked).has_quorum(shape.n) {
        RemovalStage::Closing(RemovalEnding::FewCopies)
    } else if good(shape, looked, Kind::Names).is_empty() {
        RemovalStage::Closing(RemovalEnding::SplitBrain(looked.views))
    } else {
        RemovalStage::Listing
    }
}

fn after_looks(r: &Register, child: &Child) -> RemovalStage
    requires { r.now.shape.n ≤ 5 }
    ensures { result ≡ gone_on RemovalStage.Looking r.now child.now }
{
    if has_takers(r) {
        judged(&r.shape, &child.looked)
    } else {
        RemovalStage::Closing(RemovalEnding::NoQuorum)
    }
}

/// The next stage, where nobody is left to ask.
fn go_on(stage: RemovalStage, r: &Register, child: &Child) -> RemovalStage
    requires { r.now.shape.n ≤ 5 }
    ensures { result ≡ gone_on stage r.now child.now }
{
    match stage {
        RemovalStage::Locking => choose(
            has_takers(r),
            RemovalStage::Looking,
            RemovalEnding::NoQuorum,
        ),
        RemovalStage::Looking => after_looks(r, child),
        RemovalStage::Preparing => {
            choose(
                is_enough(r, r.pre),
                RemovalStage::Applying,
                RemovalEnding::Counted,
            )
        }
        RemovalStage::Applying => {
            choose(
                is_enough(r, r.done),
                RemovalStage::Posting,
                RemovalEnding::Counted,
            )
        }
        RemovalStage::Posting => RemovalStage::Closing(RemovalEnding::Counted),
        RemovalStage::Listing => stage,
        RemovalStage::Beginning => stage,
        RemovalStage::Closing(_) => stage,
    }
}

/// The stage by who is left to ask.
pub(crate) fn after(stage: RemovalStage, r: &Register, child: &Child) -> RemovalStage
    requires { r.now.shape.n ≤ 5 }
    ensures { result ≡ (if is_nothing (left_in stage r.now child.now) then gone_on stage r.now child.now else stage) }
{
    if left_of(stage, r, child).is_empty() {
        go_on(stage, r, child)
    } else {
        stage
    }
}

/// Where the looks at the child have led to its list, the rule picks the copy that is listed.
pub(crate) fn picked_at<G: Fn(&[Candidate]) -> usize>(
    was: RemovalStage,
    stage: RemovalStage,
    r: &Register,
    child: &mut Child,
    rule: &ReadRule<G>,
) -> Option<BrickId>
    requires rule { IsRule G.Fn rule.now }
    requires some { was ≡ RemovalStage.Looking → stage ≡ RemovalStage.Listing → is_nothing (good_copies r.now.shape child.old.looked Names) ≡ false }
    ensures picked { RuleAnswers G.Fn rule.now (offered_after was stage r.now.shape child.old.looked) result }
    ensures child { child.new ≡ child_reads (reader_of result) was child.old }
{
    match was {
        RemovalStage::Looking => {
            let picked = picked_by(stage, r, &child.looked, rule);
            child.reader = reader_of(picked);
            picked
        }
        _ => None,
    }
}

fn picked_by<G: Fn(&[Candidate]) -> usize>(
    stage: RemovalStage,
    r: &Register,
    looked: &Looked,
    rule: &ReadRule<G>,
) -> Option<BrickId>
    requires rule { IsRule G.Fn rule.now }
    requires some { stage ≡ RemovalStage.Listing → is_nothing (good_copies r.now.shape looked.now Names) ≡ false }
    ensures { RuleAnswers G.Fn rule.now (offered stage r.now.shape looked.now) result }
{
    match stage {
        RemovalStage::Listing => Some(pick(&r.shape, looked, Kind::Names, rule)),
        _ => None,
    }
}

/// The list was told: a name rules the removal out.
pub(crate) fn listed(answer: &Answer, change: &Change, r: &Register) -> RemovalStage
    requires few { r.now.shape.n ≤ 5 }
    requires outside { r.now.inside ≡ false }
    ensures { result ≡ listed answer.now change.now r.now }
{
    match answer {
        Answer::Names(names) => {
            if names.len() == 0 {
                choose(
                    may(r, &Move::Begin(change)),
                    RemovalStage::Beginning,
                    RemovalEnding::Failed,
                )
            } else {
                RemovalStage::Closing(RemovalEnding::NotEmpty)
            }
        }
        _ => RemovalStage::Closing(RemovalEnding::Failed),
    }
}

/// The reply: a change that was begun is acknowledged where a majority has done post-op.
pub(crate) fn reply_of(alloc: Global, why: &RemovalEnding, r: &Register) -> Result<Reply, NoMemory>
    requires { r.now.shape.n ≤ 5 }
    ensures { IfOk result (λ reply. reply ≡ reply_of why.now r.now) }
{
    match why {
        RemovalEnding::Counted => Ok(counted(r)),
        RemovalEnding::NoQuorum => Ok(Reply::NoQuorum),
        RemovalEnding::FewCopies => Ok(Reply::FewCopies),
        RemovalEnding::SplitBrain(views) => Ok(Reply::SplitBrain(Views::new(alloc, views)?)),
        RemovalEnding::NotEmpty => Ok(Reply::NotEmpty),
        RemovalEnding::Failed => Ok(Reply::Failed),
    }
}

fn counted(r: &Register) -> Reply
    requires { r.now.shape.n ≤ 5 }
    ensures { result ≡ reply_of RemovalEnding.Counted r.now }
{
    if r.post.has_quorum(r.shape.n) {
        Reply::Ok(Good::Done)
    } else {
        Reply::Failed
    }
}
