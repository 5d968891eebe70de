//! What a transaction ends with.
ghost use Rattle.std.specs.Prelude.{◌≡◌, ◌≤◌, IfOk};
ghost use Rattle.afr_client_transaction.specs.Outcome.{outcome_by, outcome_of, reply_of};

use afr_base::NoMemory;
use afr_choice::{good, holders};
use afr_discipline::Register;
use afr_lines::{Good, Reply, kind_for};
use afr_object::{Change, View, Views};
use std::alloc::Global;

/// How a transaction ends.
#[derive(Clone, Copy, Debug)]
pub enum TransactionOutcome {
    /// A majority has done post-op.
    Acknowledged,
    /// Fewer than a majority answered the locks and the lookup.
    NoQuorum,
    /// Fewer than a majority have a copy.
    FewCopies,
    /// Each copy is accused, as these views show.
    SplitBrain([Option<View>; 5]),
    /// Too few bricks have done a phase, or the discipline allows no attempt.
    Failed,
}

/// The same without the views, which are large.
#[derive(Clone, Copy, Debug)]
pub(crate) enum Cause {
    Acknowledged,
    NoQuorum,
    FewCopies,
    SplitBrain,
    Failed,
}

/// How a transaction ends, by the sets of the register, in the order of the table of replies.
fn cause_of(change: &Change, r: &Register) -> Cause
    requires { r.now.shape.n ≤ 5 }
    ensures { outcome_by result r.now.looked.views ≡ outcome_of change.now r.now }
{
    let n = r.shape.n;
    if !r.looked.reached.has_quorum(n) {
        Cause::NoQuorum
    } else if !holders(&r.looked).has_quorum(n) {
        Cause::FewCopies
    } else if good(&r.shape, &r.looked, kind_for(change)).is_empty() {
        Cause::SplitBrain
    } else if r.post.has_quorum(n) {
        Cause::Acknowledged
    } else {
        Cause::Failed
    }
}

/// The outcome.
pub(crate) fn outcome_of(change: &Change, r: &Register) -> TransactionOutcome
    requires { r.now.shape.n ≤ 5 }
    ensures { result ≡ outcome_of change.now r.now }
{
    match cause_of(change, r) {
        Cause::Acknowledged => TransactionOutcome::Acknowledged,
        Cause::NoQuorum => TransactionOutcome::NoQuorum,
        Cause::FewCopies => TransactionOutcome::FewCopies,
        Cause::SplitBrain => TransactionOutcome::SplitBrain(r.looked.views),
        Cause::Failed => TransactionOutcome::Failed,
    }
}

/// The reply of a work that is one transaction. The views of a split brain go to it from where they lie.
pub(crate) fn reply_of(alloc: Global, change: &Change, r: &Register) -> Result<Reply, NoMemory>
    requires { r.now.shape.n ≤ 5 }
    ensures { IfOk result (λ reply. reply ≡ reply_of change.now r.now) }
{
    match cause_of(change, r) {
        Cause::Acknowledged => Ok(Reply::Ok(Good::Done)),
        Cause::NoQuorum => Ok(Reply::NoQuorum),
        Cause::FewCopies => Ok(Reply::FewCopies),
        Cause::SplitBrain => Ok(Reply::SplitBrain(Views::new(alloc, &r.looked.views)?)),
        Cause::Failed => Ok(Reply::Failed),
    }
}
