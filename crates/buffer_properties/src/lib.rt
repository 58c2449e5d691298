//! The properties of a character in its glyph record (property word, class, scratch flags), and the normal forms of a
//! text for a font: definitions and their laws (rustybuzz: hb/unicode.rs, hb/ot_layout.rs, hb/ot_shape_normalize.rs).
#![tactic(auto)]

pub mod categories;
pub mod character;
pub mod glyph_words;
pub mod info;
pub mod laws;
pub mod normal_laws;
pub mod normal_mode;

pub use normal_mode::{MAX_COMBINING_MARKS, NormalizationMode, Reach};
