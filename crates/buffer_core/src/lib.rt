//! The buffer of shaping: glyphs with a cursor, and while an output is open two lists (rustybuzz: hb/buffer.rs).
#![tactic(auto)]

pub mod buffer;
pub mod laws;
