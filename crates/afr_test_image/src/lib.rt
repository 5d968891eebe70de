//! Tests of images: how they are printed and read, and what is refused.
#![tactic(auto)]

#[cfg(test)]
mod images;
#[cfg(test)]
mod text_tests;
