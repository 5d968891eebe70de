//! What of a change stays, what a split-brain needs, and which change succeeds.
#![tactic(auto)]

mod freed;
mod stored;
mod was_missed;
mod whole_copies;

ghost use Rattle.afr_law_promises.specs.ByPosition.{AcknowledgedIsDurable};
ghost use Rattle.afr_law_promises.specs.Durable.{ModelExactIsDurable, ModelIsDurable};

pub use freed::works_leave_no_lock;
pub use stored::changes_are_available;
pub use was_missed::split_copies_missed;
pub use whole_copies::a_copy_is_whole;

/// Each acknowledged attempt was done by a majority of the bricks, not by an arbiter alone; and wherever it was done, each
/// cell that it touches has what it or a later attempt left. It asks nothing about accusations, so it holds of an object in
/// split-brain too. The clauses are those of the other laws: `model` in the words of the model, `lines` over lines by their
/// positions, `exact` in the words of the model of logs that keep the discipline in full.
pub fn acknowledged_is_durable()
    ensures model { ModelIsDurable }
    ensures lines { AcknowledgedIsDurable }
    ensures exact { ModelExactIsDurable }
{}
