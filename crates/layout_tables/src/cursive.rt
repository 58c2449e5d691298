//! Cursive attachment (OpenType, GPOS lookup type 3).
ghost use Rattle.std.specs.Prelude.{◌≡◌};
ghost use Rattle.layout_common.specs.Rows.{value_of};

use crate::value::Anchor;
use buffer_rows::SortedRows;
use layout_common::glyph_row::{GlyphRow, find_value};

/// The entry anchor of a glyph, which joins the glyph before it, and its exit anchor, which joins the one after it;
/// none where it has none.
#[derive(Clone, Copy, Debug, Drop)]
pub struct EntryExit {
    pub entry: Option<Anchor>,
    pub exit: Option<Anchor>,
}

/// Cursive attachment (GPOS lookup type 3).
#[derive(Debug, Drop)]
pub struct CursivePos {
    /// The glyphs that it covers, each with its anchors.
    pub rows: SortedRows<GlyphRow<EntryExit>>,
}

impl CursivePos {
    /// The anchors of a glyph, none where it covers no such glyph.
    pub fn entry_exit(&self, glyph: u16) -> Option<EntryExit>
        ensures { result ≡ value_of glyph self.now.rows }
    {
        find_value(&self.rows, glyph)
    }
}
