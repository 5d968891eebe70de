//! Tests of a brick's server, each of one or two requests.

#[cfg(test)]
mod tests;
