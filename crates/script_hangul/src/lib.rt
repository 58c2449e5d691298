//! Hangul: composes or decomposes syllables as the font requires, and moves tone marks before their syllables.
#![tactic(auto)]

pub mod actions;
mod composing;
pub mod hangul;
pub mod jamo;
mod kept;
pub mod map_masks;
pub mod masks;
mod performing;
pub mod requests;
pub mod text;
mod tones;
