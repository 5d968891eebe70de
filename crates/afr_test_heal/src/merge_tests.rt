//! Tests of afr_heal_merge, in a crate of their own, so that it is not proved twice.

#[cfg(test)]
mod tests;
