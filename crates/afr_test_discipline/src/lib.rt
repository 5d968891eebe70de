//! Tests of the discipline: works and heals, line by line, and moves out of turn.
#![tactic(auto)]

#[cfg(test)]
mod heals;
#[cfg(test)]
mod lines;
#[cfg(test)]
mod notes;
#[cfg(test)]
mod transactions;
