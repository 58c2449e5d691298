//! Requests for features: the merged requests for each feature, and its bits in glyph masks (rustybuzz: hb/ot_map.rs).
#![tactic(auto)]

pub mod field;
pub mod flags;
pub mod kept_fields;
pub mod laws;
pub mod lookup;
pub mod merge;
pub mod per_table;
pub mod request;
pub mod required;
