//! Tags, scripts, directions and languages of a text, and the constants of its shaping (rustybuzz: hb/common.rs,
//! hb/tag.rs, hb/unicode.rs, hb/buffer.rs).
#![tactic(auto)]

pub mod constants;
pub mod direction;
pub mod language;
pub mod language_tags;
pub mod script;
pub mod script_tags;
pub mod tag;
