//! Tests of what the check finds of a trace.
#![tactic(auto)]

#[cfg(test)]
mod built;
#[cfg(test)]
mod tests;
#[cfg(test)]
mod worked;
#[cfg(test)]
mod worked_tests;
