//! The carets of ligatures that a font gives (OpenType, GDEF, ligature caret list table).
#![tactic(auto)]

pub mod file;
pub mod lists;
pub mod rows;

pub use buffer_rows::SortedRows;
pub use file::ligature_carets;
pub use lists::read_ligature_carets;
pub use rows::{LigatureCarets, carets_of, glyph_carets, no_ligatures};
