//! Cells, the runs that have them, and why a text has none.
//!
//! As each error type of the workspace `CellFault` has a conversion from want of memory of its own: rt takes no impl that
//! a macro of a repository writes.
use std::alloc::AllocError;
use thiserror::Error;

/// What is drawn as one: the text from one byte to another, with its cells and its glyphs.
#[derive(Clone, Copy, PartialEq, Eq, Debug)]
pub struct CellRun {
    /// The index of its first byte, the least cluster of its glyphs.
    pub start: usize,
    /// The index after its last byte.
    pub end: usize,
    /// The index of its first cell, counted from where the line begins: from the right end of a right-to-left line.
    pub first_cell: usize,
    /// The index after its last cell.
    pub end_cell: usize,
    /// The index of its first glyph, from left to right.
    pub first_glyph: usize,
    /// The index after its last glyph.
    pub end_glyph: usize,
}

/// A range of cells, or of a screen's columns: the index of the first, and one past the last.
#[derive(Clone, Copy, PartialEq, Eq, Debug)]
pub struct CellRange {
    pub start: usize,
    pub end: usize,
}

/// A glyph as it is drawn: its number, and its advances and offsets in font units.
#[derive(Clone, Copy, PartialEq, Eq, Debug)]
pub struct CellGlyph {
    pub glyph_id: u32,
    pub x_advance: i32,
    pub y_advance: i32,
    pub x_offset: i32,
    pub y_offset: i32,
}

/// Why a result has no cells.
#[derive(Clone, Copy, PartialEq, Eq, Debug, Error)]
pub enum CellFault {
    #[error("out of memory")]
    OutOfMemory,
    /// The glyphs can't be traced to slices of the text, or their slices don't join along a line of this direction.
    #[error("no slices")]
    NoSlices,
}

impl From<AllocError> for CellFault {
    ghost use Rattle.std.specs.Prelude.{◌≡◌};
    ghost use Rattle.cell_grid.specs.declared.cells.CellFault.TheVariants.{OutOfMemory};

    ghost from_gives = { λ _ e. e ≡ OutOfMemory };

    fn from(_error: AllocError) -> CellFault {
        CellFault::OutOfMemory
    }
}
