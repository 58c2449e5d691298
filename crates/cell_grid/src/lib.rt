//! The cells of a terminal that a shaped line of text takes: which glyphs are in which cells, which cells are drawn
//! together, as those of a ligature, and which are drawn again after an edit. Widths are those of the crate
//! `unicode_width`. rustybuzz leaves this to its callers. The crate stands on the calls and laws of `kuspveli`, and on
//! what `caret_model` says of lines.
#![tactic(auto)]

mod cells;
mod drawing;
mod grid;
pub mod laws;
#[cfg(test)]
mod rows;
mod runs;
mod slices;

pub use cells::{CellFault, CellGlyph, CellRange, CellRun};
pub use drawing::{cells_to_draw, columns_of};
pub use grid::{CellGrid, cell_grid};
