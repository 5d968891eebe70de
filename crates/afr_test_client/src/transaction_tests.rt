//! Tests of a transaction: answers in the order of its lines, and what it asks and ends with.

#[cfg(test)]
mod changes;
#[cfg(test)]
mod lines;
#[cfg(test)]
mod phases;
