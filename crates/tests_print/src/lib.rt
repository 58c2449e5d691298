//! Tests of printed fonts.
//!
//! Each module of tests has a line `#[cfg(test)]`, since the gate also proves the crate without its tests: without them
//! every function would be proved twice.
#![tactic(auto)]

#[cfg(test)]
mod printing;
#[cfg(test)]
mod tags;
