//! Tests of afr_heal_machine, in a crate of their own, so that it is not proved twice.

#[cfg(test)]
mod heals;
#[cfg(test)]
mod lines;
