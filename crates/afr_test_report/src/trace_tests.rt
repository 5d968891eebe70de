//! Tests of the text of traces.

#[cfg(test)]
mod lines;
#[cfg(test)]
mod requests;
#[cfg(test)]
mod tests;
#[cfg(test)]
mod traced;
