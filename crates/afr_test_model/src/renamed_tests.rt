//! Samples of what the definitions of a rename admit and refuse.
