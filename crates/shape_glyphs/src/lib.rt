//! Characters as glyphs before the lookups, their advances by the font's metrics, and the clean-up of glyphs after the
//! lookups.
#![tactic(auto)]

pub mod advances;
pub mod flags;
pub mod glyphs;
pub mod ignorables;
pub mod selectors;
pub mod widths;
