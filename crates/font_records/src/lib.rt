//! Arrays of records: values that are read in turn, and rows of the glyphs of a coverage (OpenType, chapter 2).
//!
//! The readers of the layer give these two traits their records: they have one form, and differ in the record.
#![tactic(auto)]

pub mod array;
pub mod rows;

pub use array::{RecordReader, read_array};
pub use rows::{RowReader, read_covered_rows, read_rows_of_glyphs};
