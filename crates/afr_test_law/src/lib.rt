//! Samples of logs that keep the laws, and of logs that come near.
#![tactic(auto)]

mod promises_tests;
