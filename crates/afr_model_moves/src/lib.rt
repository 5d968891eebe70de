//! The discipline: which moves each actor may make after the lines of a log, by their positions; definitions alone.
#![tactic(auto)]
