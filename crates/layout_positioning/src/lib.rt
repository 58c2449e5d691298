//! GPOS lookups, each tried at all glyphs of a buffer without an output, and cursive attachment at the cursor
//! (rustybuzz: hb/ot_layout.rs, hb/ot_layout_gpos_table.rs).
#![tactic(auto)]

pub mod apply;
pub mod cursive_join;
pub mod forward;
pub mod kerning;
pub mod lookup;
pub mod nested;
pub mod nesting;
pub mod position;
