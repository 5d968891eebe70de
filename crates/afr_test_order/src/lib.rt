//! Tests of runs in the stated order.
#![tactic(auto)]

#[cfg(test)]
mod tests;
