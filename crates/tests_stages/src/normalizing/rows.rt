//! A normaliser whose font and hooks are rows.
ghost use Rattle.std.specs.Prelude.{◌≡◌, refl};
ghost use Rattle.buffer_glyphs.specs.Rewriting.{eventless_arrangement};
ghost use Rattle.tests_stages.specs.Rows.{glyph_in, pair_in, parts_in};

use buffer_core::buffer::hb_buffer_t;
use buffer_properties::NormalizationMode;
use buffer_unicode_tables::UnicodeTables;
use shape_normalize::normalizing::Normalizing;

/// A font, tables and a shaper without `reorder_marks`.
#[derive(Drop)]
pub struct RowNormalizer<'a> {
    pub tables: &'a UnicodeTables,
    pub mode: NormalizationMode,
    /// Characters with their glyphs.
    pub glyphs: &'a [(char, u32)],
    /// Characters with a variation selector, and their glyphs.
    pub variants: &'a [(char, char, u32)],
    /// Characters with the halves of their decompositions.
    pub splits: &'a [(char, char, char)],
    /// Pairs of characters, and their compositions.
    pub pairs: &'a [(char, char, char)],
    pub invisible: Option<u32>,
    pub unjoined_glyph: Option<u32>,
    pub not_found: u32,
}

impl Normalizing for RowNormalizer<'_> {
    ghost normalizer = { λ n. record {
      tables = n.tables.now;
      mode = n.mode;
      glyph_of = glyph_in n.glyphs.now;
      variant_of = pair_in n.variants.now;
      invisible = n.invisible;
      unjoined_glyph = n.unjoined_glyph;
      not_found = n.not_found;
      splits = parts_in n.splits.now;
      composes = pair_in n.pairs.now;
      reorders = λ run. eventless_arrangement run;
    } };

    ghost keeps_count = { λ n run. refl };

    fn mode(&self) -> NormalizationMode {
        self.mode
    }

    fn tables(&self) -> &UnicodeTables {
        self.tables
    }

    fn glyph(&self, u: u32) -> Option<u32> {
        let (_, glyph) = self.glyphs.iter().find(|row| u32::from(row.0) == u)?;
        Some(*glyph)
    }

    fn variant(&self, u: u32, selector: u32) -> Option<u32> {
        let (_, _, glyph) = self.variants.iter().find(|row| u32::from(row.0) == u
            && u32::from(row.1) == selector)?;
        Some(*glyph)
    }

    fn invisible(&self) -> Option<u32> {
        self.invisible
    }

    fn unjoined_glyph(&self) -> Option<u32> {
        self.unjoined_glyph
    }

    fn not_found(&self) -> u32 {
        self.not_found
    }

    fn decompose(&self, ab: u32) -> Option<(char, char)> {
        let (_, first, second) = self.splits.iter().find(|row| u32::from(row.0) == ab)?;
        Some((*first, *second))
    }

    fn compose(&self, a: u32, b: u32) -> Option<char> {
        let (_, _, whole) = self
            .pairs
            .iter()
            .find(|row| u32::from(row.0) == a && u32::from(row.1) == b)?;
        Some(*whole)
    }

    #[tactic(auto, using(crate::proofs::Ready::unchanged))]
    fn reorder_marks(&self, _buffer: &mut hb_buffer_t, _start: usize, _end: usize) {}
}
