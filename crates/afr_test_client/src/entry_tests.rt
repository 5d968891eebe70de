//! Tests of commands on a name of a directory.

#[cfg(test)]
mod tests;
