//! What the tables GDEF, GSUB and GPOS share, from their bytes: coverages, and tables at offsets (OpenType, chapter 2).
#![tactic(auto)]

pub mod class_definition;
pub mod coverage;
pub mod offsets;
pub mod rows;
pub mod words;

pub use class_definition::{ClassReader, read_class_definition, read_class_rows};
pub use coverage::{
    read_coverage, read_coverage_glyphs, read_glyphs_at_offset, read_glyphs_in_room,
};
pub use offsets::{CoverageReader, TableReader, read_at_offset, read_list, read_tables};
pub use rows::{first_rows, push_above};
pub use words::{push_words, read_word_rows, read_words};
