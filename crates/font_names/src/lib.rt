//! The names of a font's glyphs from its table post (OpenType, chapter 5, PostScript table).
#![tactic(auto)]

pub mod macintosh;
pub mod names;
pub mod strings;

pub use names::read_names;
