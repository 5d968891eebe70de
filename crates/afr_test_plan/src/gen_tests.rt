//! Tests of generated plans.

#[cfg(test)]
mod tests;
