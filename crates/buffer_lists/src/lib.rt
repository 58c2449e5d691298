//! Lists of glyphs (rustybuzz: hb/buffer.rs). On slices: groups of neighbours, a stable sort, deletion in place, and
//! glyph flags by cluster. On both sides of a cursor: the output's list, and the input's from the cursor on.
#![tactic(auto)]

pub mod deletion;
pub mod deletion_within;
mod due;
pub mod flags;
pub mod groups;
pub mod handing;
pub mod laws;
pub mod masks;
pub mod merges;
pub mod order;
pub mod over;
pub mod replacement;
pub mod reversal;
pub mod sorting;
