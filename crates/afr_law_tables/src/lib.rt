//! What holds of the tables and the numbers of every log: sums of lines, and what each change leaves.
#![tactic(auto)]
