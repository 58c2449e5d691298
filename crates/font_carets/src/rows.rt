//! Ligatures with their carets.
ghost use Rattle.std.specs.Prelude.{◌≡◌, []};
ghost use Rattle.font_carets.specs.Rows.{carets_of, glyph_carets};

use buffer_rows::{Keyed, SortedRows};
use layout_common::array::Array;
use std::alloc::Global;

/// A ligature, and the coordinates of its carets along a line, in font units from the glyph's origin; the specification
/// wants them to rise.
#[derive(Drop)]
pub struct LigatureCarets {
    pub glyph: u16,
    pub carets: Array<i16>,
}

impl Keyed for LigatureCarets {
    type Key = u16;

    ghost key_of = { λ r. r.glyph };

    fn key(&self) -> u16 {
        self.glyph
    }
}

/// The coordinates of a glyph's carets, none where the font gives it none. In logarithmic time.
#[tactic(auto, using(buffer_rows::proofs::Searched::row_of_number))]
pub fn carets_of(rows: &SortedRows<LigatureCarets>, glyph: u16) -> &[i16]
    ensures { result.now ≡ carets_of glyph rows.entry.now }
{
    match rows.get(glyph) {
        Some(row) => row.carets.as_slice(),
        None => &[],
    }
}

/// The coordinates of the carets of the glyph with a number, none of a number that is no glyph's. In logarithmic time.
pub fn glyph_carets(rows: &SortedRows<LigatureCarets>, number: u32) -> &[i16]
    ensures { result.now ≡ glyph_carets rows.entry.now number }
{
    match u16::try_from(number) {
        Ok(glyph) => carets_of(rows, glyph),
        Err(_) => &[],
    }
}

/// No ligature, as of a font that gives no carets. Takes no memory.
pub fn no_ligatures(alloc: Global) -> SortedRows<LigatureCarets>
    ensures { result ≡ [] }
{
    SortedRows::new(Vec::new(alloc))
}
