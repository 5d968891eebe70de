//! Tests of the small crates, in a crate of their own, so that none of them is proved twice.
#![tactic(auto)]

#[cfg(test)]
mod tests;
#[cfg(test)]
mod words_tests;
