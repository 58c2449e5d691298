//! A font file's bytes as a `Face`: the tables that a font has to have, those that it may have, and what is wrong where it
//! isn't read (OpenType, chapter 4).
#![tactic(auto)]

mod advances;
mod characters;
mod count;
mod face;
mod found;
mod headers;
mod layouts;
mod outlines;
mod parts;
mod rooms;

pub use count::font_count;
pub use face::read_font;
pub use font_bytes::{FontFault, FontTable};
pub use parts::FontParts;
