//! Tests of the servers of a volume, each call once.

#[cfg(test)]
mod tests;
