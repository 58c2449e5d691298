//! Reverse chaining single substitution (OpenType, GSUB lookup type 8).
ghost use Rattle.std.specs.Prelude.{◌≡◌};
ghost use Rattle.layout_common.specs.Rows.{value_of};

use buffer_rows::SortedRows;
use layout_common::array::Array;
use layout_common::coverage::Coverage;
use layout_common::glyph_row::{GlyphRow, find_value};

/// Reverse chaining single substitution (GSUB lookup type 8): a glyph for a glyph in a context, from the end of the text.
#[derive(Debug, Drop)]
pub struct ReverseChainSubst {
    /// The sets of glyphs of the backtrack sequence, the nearest first.
    pub backtrack: Array<Coverage>,
    /// The sets of glyphs of the lookahead sequence, the nearest first.
    pub lookahead: Array<Coverage>,
    /// The glyphs that it covers, each with its substitute.
    pub rows: SortedRows<GlyphRow<u16>>,
}

impl ReverseChainSubst {
    /// The glyph that replaces a glyph, none where the subtable doesn't cover it.
    pub fn substitute(&self, glyph: u16) -> Option<u16>
        ensures { result ≡ value_of glyph self.now.rows }
    {
        find_value(&self.rows, glyph)
    }
}
