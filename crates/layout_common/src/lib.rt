//! The common tables of GSUB and GPOS subtables: coverage, class definitions, lookup flags (OpenType, chapter 2).
#![tactic(auto)]

pub mod array;
pub mod class_definition;
pub mod columns;
pub mod coverage;
pub mod digest;
pub mod digested;
pub mod flags;
pub mod glyph_bits;
pub mod glyph_row;
pub mod laws;
pub mod low_bits;
pub mod neighbours;
pub mod subtables;
