//! Tests of plans that are read and printed.
#![tactic(auto)]

#[cfg(test)]
mod gen_tests;
#[cfg(test)]
mod tests;
