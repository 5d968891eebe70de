//! Tests of renames.

#[cfg(test)]
mod tests;
