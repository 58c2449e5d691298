//! A font file as the input of a run, over the tables of characters that the library has.
#![tactic(auto)]

mod input;

pub use input::{library_tables, read_font_input, read_font_of};
