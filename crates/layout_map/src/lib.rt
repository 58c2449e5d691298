//! The compiled map of requested features: what the font has for a text's script and language, the bits of glyph masks
//! for each feature, and the stages of lookups (rustybuzz: hb/ot_map.rs).
#![tactic(auto)]

pub mod builder;
pub mod chosen;
pub mod chosen_feature;
pub mod features;
pub mod laws;
pub mod map;
pub mod masks;
pub mod request;
pub mod stages;
mod tag_slots;
