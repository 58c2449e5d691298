//! The glyphs of characters from a font's table cmap (OpenType, chapter 5, character to glyph index mapping table).
#![tactic(auto)]

pub mod characters;
pub mod encoded;
pub mod encodings;
pub mod laws;
pub mod ranges;
pub mod roman;
pub mod rows;
pub mod subtables;
pub mod variations;

pub use characters::read_characters;
pub use variations::read_variations;
