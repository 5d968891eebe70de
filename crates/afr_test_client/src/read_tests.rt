//! Tests of commands that read an object.

#[cfg(test)]
mod tests;
