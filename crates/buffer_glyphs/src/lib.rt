//! Lists of glyphs: the records of characters and glyphs, the items that every contract cites (glyphs without their
//! clusters) and the events on the parts of a text, merges of clusters, glyph flags, and the deletion of one glyph
//! (rustybuzz: hb/buffer.rs).
#![tactic(auto)]

pub mod cause;
pub mod deletion;
pub mod flags;
pub mod info;
pub mod laws;
pub mod level;
pub mod ligature_words;
pub mod marks;
pub mod merges;
pub mod names;
pub mod position;
pub mod property_words;
pub mod ranges;
pub mod run_flags;
pub mod runs;
