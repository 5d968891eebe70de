//! Tests of reports and of traces.
#![tactic(auto)]

#[cfg(test)]
mod made;
#[cfg(test)]
mod reported;
#[cfg(test)]
mod tests;
#[cfg(test)]
mod trace_tests;
