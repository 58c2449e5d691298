//! GSUB subtables that call no other lookup, applied at the cursor of a buffer.
#![tactic(auto)]

pub mod alternate;
pub mod apply;
mod components;
pub mod context;
pub mod glyph_classes;
pub mod ligate;
pub mod ligature;
pub mod multiple;
pub mod replacement;
pub mod reverse;
pub mod single;
