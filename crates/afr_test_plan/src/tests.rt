//! Whole plans, the lines that are refused, the limits, plans of many words, and what is printed.
mod many;
mod plans;
mod printed;
mod refused;
