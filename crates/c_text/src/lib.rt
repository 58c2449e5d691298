//! What the library for C is made of: the texts that C passes, the fonts and tables that it holds by handles, the glyphs that
//! it reads, and its numbers of settings and faults. rustybuzz has no interface for C.
#![tactic(auto)]

pub mod advances;
mod character_glyphs;
pub mod font;
pub mod formats;
pub mod handle;
pub mod input;
pub mod ligatures;
pub mod line_spacing;
pub mod numbers;
pub mod plan;
pub mod pointer;
pub mod queries;
pub mod replacements;
pub mod requests;
pub mod scale;
pub mod segment;
pub mod texts;
pub mod types;
pub mod written;
