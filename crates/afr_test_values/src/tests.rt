//! One file for each crate that is tested here.
mod base;
mod choice;
mod content;
mod faults;
mod index;
mod lines;
mod log;
mod marks;
mod name_locks;
mod object;
mod range_locks;
mod rule;
mod session;
mod tasks;
mod text;
