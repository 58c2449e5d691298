//! Lemmas about truth values, numbers and lists that the crates above bring in.
#![tactic(auto)]
