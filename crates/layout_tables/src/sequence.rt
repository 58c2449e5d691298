//! Multiple and alternate substitution (OpenType, GSUB lookup types 2 and 3).
ghost use Rattle.std.specs.Prelude.{◌≡◌};
ghost use Rattle.std.specs.Option.{option_copied};
ghost use Rattle.layout_tables.specs.Substitutions.{glyphs_of};

use buffer_rows::{Keyed, SortedRows};
use layout_common::array::Array;

/// A glyph with the glyphs of its sequence, or its alternates.
#[derive(Debug, Drop)]
pub struct SequenceRow {
    pub glyph: u16,
    pub glyphs: Array<u16>,
}

impl Keyed for SequenceRow {
    type Key = u16;

    ghost key_of = { λ r. r.glyph };

    fn key(&self) -> u16 {
        self.glyph
    }
}

/// Multiple substitution (GSUB lookup type 2): a sequence for a glyph.
#[derive(Debug, Drop)]
pub struct MultipleSubst {
    /// The glyphs that it covers, each with its sequence, which may be empty.
    pub rows: SortedRows<SequenceRow>,
}

impl MultipleSubst {
    /// The glyphs that replace a glyph, in their order, none where the subtable doesn't cover it.
    #[tactic(auto, using(buffer_rows::proofs::Searched::row_of_number))]
    pub fn sequence(&self, glyph: u16) -> Option<&[u16]>
        ensures { option_copied result ≡ glyphs_of glyph self.now.rows }
    {
        find_glyphs(&self.rows, glyph)
    }
}

/// Alternate substitution (GSUB lookup type 3): one of several glyphs for a glyph.
#[derive(Debug, Drop)]
pub struct AlternateSubst {
    /// The glyphs that it covers, each with its alternates.
    pub rows: SortedRows<SequenceRow>,
}

impl AlternateSubst {
    /// The glyphs one of which replaces a glyph, the first of them number 1, none where the subtable doesn't cover it.
    #[tactic(auto, using(buffer_rows::proofs::Searched::row_of_number))]
    pub fn alternates(&self, glyph: u16) -> Option<&[u16]>
        ensures { option_copied result ≡ glyphs_of glyph self.now.rows }
    {
        find_glyphs(&self.rows, glyph)
    }
}

#[tactic(auto, using(buffer_rows::proofs::Searched::row_of_number))]
fn find_glyphs(rows: &SortedRows<SequenceRow>, glyph: u16) -> Option<&[u16]>
    ensures { option_copied result ≡ glyphs_of glyph rows.entry.now }
{
    match rows.get(glyph) {
        Some(row) => Some(row.glyphs.as_slice()),
        None => None,
    }
}
