//! One transaction of any change, from its first lock to its last unlock, over the register of the discipline.
#![tactic(auto)]

mod change;
mod fop;
mod laws;
mod lock;
mod lookup;
mod machine;
mod post_op;
mod pre_op;
mod reply;
mod second_work;
mod stage;
mod unlock;

pub use change::{area_of, has_area};
pub use laws::a_transaction_stays_sound;
pub use machine::Transaction;
pub use reply::TransactionOutcome;
pub use second_work::{a_transaction_follows_another, begins_again};
pub use stage::{LocksAndLooks, Stage};
