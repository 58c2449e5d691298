//! The shaper of Myanmar: reorders the glyphs of a syllable.
#![tactic(auto)]

pub mod laws;
pub mod myanmar;
mod myanmar_positions;
pub mod pauses;
pub mod requests;
