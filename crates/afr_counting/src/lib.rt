//! How many of the first numbers pass a test, where the test changes: lemmas alone.
#![tactic(auto)]
