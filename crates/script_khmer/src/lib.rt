//! The shaper of Khmer: decomposes split vowels, and reorders the glyphs of a syllable.
#![tactic(auto)]

pub mod khmer;
pub mod laws;
mod masks;
pub mod pauses;
pub mod requests;
mod runs;
