//! Tests of stages around the lookups, normalizing among them, and of what the shapers of scripts do to a text.
//!
//! Each module of tests has a line `#[cfg(test)]`, since the gate also proves the crate without its tests: with none
//! of these lines it would prove every function twice.
#![tactic(auto)]

#[cfg(test)]
mod buffers;
#[cfg(test)]
mod bytes;
#[cfg(test)]
mod glyphs;
#[cfg(test)]
mod indic;
#[cfg(test)]
mod joining;
#[cfg(test)]
mod layout_calls;
#[cfg(test)]
mod marks;
#[cfg(test)]
mod nested_positions;
#[cfg(test)]
mod normalizing;
#[cfg(test)]
mod positions;
#[cfg(test)]
mod replacements;
#[cfg(test)]
mod rows;
pub mod spans;
#[cfg(test)]
mod stages;
#[cfg(test)]
mod syllables;
#[cfg(test)]
mod tables;
#[cfg(test)]
mod thai;
