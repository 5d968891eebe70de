//! Tests of a crawl.
#![tactic(auto)]

#[cfg(test)]
mod tests;
