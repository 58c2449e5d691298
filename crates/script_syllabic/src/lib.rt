//! The stages on syllables that several shapers share: syllable bytes, categories, dotted circles for broken syllables,
//! pauses, and the universal shaper's syllables with the masks of their glyphs.
#![tactic(auto)]

pub mod categories;
pub mod characters;
pub mod circles;
pub mod clearing;
pub mod forms;
pub mod graphemes;
pub mod laws;
pub mod pauses;
pub mod recording;
pub mod rphf;
pub mod spans;
pub mod syllable_glyphs;
pub mod syllables;
