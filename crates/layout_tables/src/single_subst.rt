//! Single substitution (OpenType, GSUB lookup type 1).
ghost use Rattle.std.specs.Prelude.{◌≡◌};
ghost use Rattle.layout_common.specs.Rows.{value_of};

use buffer_rows::SortedRows;
use layout_common::glyph_row::{GlyphRow, find_value};

/// Single substitution (GSUB lookup type 1): a glyph for a glyph.
#[derive(Debug, Drop)]
pub struct SingleSubst {
    /// The glyphs that it covers, each with its substitute.
    pub rows: SortedRows<GlyphRow<u16>>,
}

impl SingleSubst {
    /// The glyph that replaces a glyph, none where the subtable doesn't cover it.
    pub fn substitute(&self, glyph: u16) -> Option<u16>
        ensures { result ≡ value_of glyph self.now.rows }
    {
        find_value(&self.rows, glyph)
    }
}
