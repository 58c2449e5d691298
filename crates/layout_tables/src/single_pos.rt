//! Single adjustment (OpenType, GPOS lookup type 1).
ghost use Rattle.std.specs.Prelude.{◌≡◌};
ghost use Rattle.layout_common.specs.Rows.{value_of};

use crate::value::ValueRecord;
use buffer_rows::SortedRows;
use layout_common::glyph_row::{GlyphRow, find_value};

/// Single adjustment (GPOS lookup type 1).
#[derive(Debug, Drop)]
pub struct SinglePos {
    /// The glyphs that it covers, each with its adjustment.
    pub rows: SortedRows<GlyphRow<ValueRecord>>,
}

impl SinglePos {
    /// The value record of a glyph, none where the subtable doesn't cover it.
    pub fn value(&self, glyph: u16) -> Option<ValueRecord>
        ensures { result ≡ value_of glyph self.now.rows }
    {
        find_value(&self.rows, glyph)
    }
}
