//! Tests of heals and rounds: the lines that they write, with the answers of three bricks, up to their end.
#![tactic(auto)]

#[cfg(test)]
mod answers;
#[cfg(test)]
mod machine_tests;
#[cfg(test)]
mod merge_tests;
#[cfg(test)]
mod round_tests;
