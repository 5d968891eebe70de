//! Faults that a plan has for the requests to a brick.
#![tactic(auto)]

mod fault_plan;

pub use fault_plan::FaultPlan;
