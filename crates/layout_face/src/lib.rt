//! A font as a parsed value: its lookups and their tables (OpenType, GSUB and GPOS), and the metrics and names of its
//! glyphs (rustybuzz: hb/face.rs).
#![tactic(auto)]

pub mod face;
pub mod laws;
pub mod layout;
mod lookup_indices;
mod names;
pub mod parts;
pub mod positioning;
pub mod substitution;
pub mod would_apply;

pub use face::{Face, Face as hb_font_t};
pub use parts::FaceParts;
