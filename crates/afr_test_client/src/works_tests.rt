//! Tests of a client's present work, whichever command it is of.

#[cfg(test)]
mod tests;
