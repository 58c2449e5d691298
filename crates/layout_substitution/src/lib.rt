//! GSUB lookups, stage after stage, each tried at all glyphs of a buffer (rustybuzz: hb/ot_layout.rs,
//! hb/ot_layout_gsub_table.rs).
#![tactic(auto)]

pub mod apply;
pub mod backward;
pub mod forward;
pub mod lookup;
pub mod nested;
pub mod nesting;
pub mod substitute;
