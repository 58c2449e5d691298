//! The layout layer under one name: a font's value, its tables, maps of features, matching, substitution, positioning.
#![tactic(auto)]

pub mod hb;
pub mod laws;
pub mod tables;

pub use buffer_glyphs::cause::ShapeCause;
pub use buffer_glyphs::names::{GlyphId, hb_glyph_extents_t};
pub use layout_face::parts::FaceParts;
pub use layout_face::{Face, hb_font_t};
