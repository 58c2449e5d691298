//! Runs the shaper: from the bytes of tables, a font and a text to the printed glyphs and slices; and the program hb_shape, over
//! its command-line words, the files that they name, and its output streams.
#![tactic(auto)]

mod answer;
pub mod files;
pub mod laws;
mod lines;
pub mod program;
mod read;
mod report;
pub mod running;
mod shape;
mod slices;
mod write;

pub use read::read_all;
pub use running::{run, write_answer};
pub use script_categories::SyllableTable;
pub use shell_face_json::read_face;
pub use shell_json::fault::JsonFault;
pub use shell_readers::fault::RunFault;
pub use shell_readers::options::Options;
pub use shell_tables_json::{read_languages, read_syllables, read_tables};
pub use shell_words::{CommandLine, parse_options};
pub use write::write_lines;
