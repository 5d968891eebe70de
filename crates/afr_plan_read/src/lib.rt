//! Reading a plan: its lines, the rules that each may break, and the plan that all of them give.
#![tactic(auto)]

mod data_bytes;
mod draft;
mod keyed;
mod limits;
mod lines;
mod names;
mod order;
mod paths;
mod places;
mod read;
mod rules;
mod runs;
mod texts;
mod totals;
mod versions;
mod words;

pub use lines::cut;
pub use read::{one_plan_for_a_text, read_plan};
