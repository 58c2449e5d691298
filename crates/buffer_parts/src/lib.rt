//! The parts of a text: events that keep clusters in order, the part of each character, slices, and how many glyphs events
//! leave; which pipeline stages and rules keep the parts, and that they depend on no length limit and count the budget of
//! nested lookups. All are laws of our own, which rustybuzz has not.
#![tactic(auto)]

pub mod breaks;
pub mod count_laws;
pub mod keeping_laws;
pub mod laws;
pub mod length_laws;
pub mod part_laws;
pub mod text_laws;
