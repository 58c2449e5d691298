//! The start of shaping: the properties of a text's characters, its graphemes, a dotted circle before a mark, the
//! text's direction, mirrored and vertical characters, and the masks of its glyphs: which features apply to each, in
//! ranges and in fractions.
#![tactic(auto)]

pub mod circle;
pub mod clusters;
pub mod direction;
pub mod fractions;
pub mod graphemes;
mod known_characters;
pub mod masks;
pub mod properties;
pub mod ranges;
pub mod rotation;
