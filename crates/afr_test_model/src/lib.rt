//! Samples of what the definitions of a log admit and refuse.
#![tactic(auto)]

mod renamed_tests;
