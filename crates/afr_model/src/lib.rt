//! What a log must satisfy: definitions over a plan and the lines of a log, the newest first.
#![tactic(auto)]

mod cut_works;
