//! Runs the program kuspveli: from the bytes of a font file and a text to the printed glyphs and slices, over its
//! command-line words, the files that they name, and its output streams.
#![tactic(auto)]

pub mod fault;
mod line;
pub mod program;
mod running;
pub mod texts;

pub use running::run_font;
