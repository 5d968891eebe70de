//! What every plan is like that a text spells: it is one that the volume can run.
#![tactic(auto)]

mod spelled;

pub use spelled::every_spelled_plan_runs;
