//! Tests of logs that are built of traces.
#![tactic(auto)]

#[cfg(test)]
mod tests;
