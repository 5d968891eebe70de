//! Tests of a client's machines, with the answers of three bricks: a walk, a read, a change, a name, a rename, and its present work.
#![tactic(auto)]

#[cfg(test)]
mod entry_tests;
#[cfg(test)]
mod read_tests;
#[cfg(test)]
mod rename_tests;
#[cfg(test)]
mod tests;
#[cfg(test)]
mod transaction_tests;
#[cfg(test)]
mod works_tests;
#[cfg(test)]
mod write_tests;
