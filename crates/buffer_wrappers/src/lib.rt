//! The buffer as its users hold it: a text to shape, and the glyphs of a shaped text with their printed line (rustybuzz:
//! hb/buffer.rs, `UnicodeBuffer`, `GlyphBuffer`, `serialize`).
#![tactic(auto)]

pub mod glyphs;
pub mod laws;
mod pen;
mod pieces;
mod printing;
pub mod unicode_buffer;

pub use printing::serialize;
