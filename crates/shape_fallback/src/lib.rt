//! Fallbacks for a font without rules for marks and spaces: marks are positioned around their bases by glyph extents.
#![tactic(auto)]

mod around;
mod bases;
pub mod boxes;
pub mod classes;
pub mod kerning;
pub mod marks;
pub mod spaces;
pub mod zeroing;

/// A list of this length or more is searched to its end, so that several glyphs are tested at once.
const SEVERAL: usize = 16;
