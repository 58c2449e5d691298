//! Lines of a paragraph that was shaped as a whole with safe breaks (PRODUCE_SAFE_BREAKS): which of them are the
//! whole's own glyphs, and which have to be shaped again. Where a line may end is handed in (UAX 14). rustybuzz leaves
//! this to its callers. The crate stands on the calls and laws of `kuspveli` alone.
#![tactic(auto)]

mod cuts;
#[cfg(test)]
mod edit_rows;
mod edits;
mod filling;
pub mod laws;
mod lines;
#[cfg(test)]
mod rows;
mod shaped_lines;
mod shapes_lines;
mod steps;
mod tests_of_order;

pub use edits::{Edit, EditRange, edit_range};
pub use filling::{cut_lines, cut_unit_lines};
pub use lines::{FillFault, FilledLine, GlyphRange, Line, LineFault, LineGlyphs, Widths};
pub use shaped_lines::fill_lines;
pub use shapes_lines::ShapesLines;
