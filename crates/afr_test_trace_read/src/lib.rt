//! Tests of traces that are read.
#![tactic(auto)]

#[cfg(test)]
mod tests;
