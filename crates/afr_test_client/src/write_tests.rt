//! Tests of commands that change an object.

#[cfg(test)]
mod tests;
