//! The calls of the program hb_shape but its run, which is in `shell_run`: readers of its files, the command line, the
//! slices of a result, and faults.

pub use buffer_glyphs::cause::ShapeCause;
pub use script_categories::SyllableTable;
pub use shape_slices::slices::{SourceSlice, source_slices, unit_slices};
pub use shell_face_json::read_face;
pub use shell_json::fault::JsonFault;
pub use shell_readers::fault::RunFault;
pub use shell_readers::options::Options;
pub use shell_tables_json::{read_languages, read_syllables, read_tables};
pub use shell_words::{CommandLine, parse_options};

/// Whether a result has slices.
pub mod fitting {
    pub use shape_slices::fitting::{slices_fit, units_fit};
}
