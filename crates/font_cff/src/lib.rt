//! The tables `CFF ` (Adobe TN 5176) and CFF2 (OpenType): glyphs, the control boxes of their outlines, their names.
#![tactic(auto)]

pub mod charset;
pub mod dict;
pub mod fonts;
pub mod glyphs;
pub mod header;
pub mod names;
pub mod outlines;
pub mod selects;

pub use glyphs::{CffGlyphs, CffParts, read_cff};
