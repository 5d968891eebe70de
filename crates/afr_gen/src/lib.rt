//! The plan of a generated load: by one number, four clients with that many commands each and a healer.
#![tactic(auto)]

mod commands;
mod load;
mod wording;

pub use load::{gen_plan, generated_plans_are_runnable, generated_plans_are_their_lines};
