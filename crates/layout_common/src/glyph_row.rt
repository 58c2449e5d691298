//! Rows of a glyph with a table's value for it.
ghost use Rattle.std.specs.Prelude.{◌≡◌, ◌==◌, is_some};
ghost use Rattle.layout_common.specs.Rows.{value_of, with_value};

use crate::digest::hb_set_digest_ext;
use crate::digested::Covers;
use buffer_rows::{Keyed, Numbered, SortedRows};

/// A glyph, and a table's value for it.
#[derive(Clone, Copy, Debug, Drop)]
pub struct GlyphRow<V> {
    pub glyph: u16,
    pub value: V,
}

impl<V> Keyed for GlyphRow<V> {
    type Key = u16;

    ghost key_of = { λ r. r.glyph };

    fn key(&self) -> u16 {
        self.glyph
    }
}

impl<V: Copy> Numbered for GlyphRow<V> {
    ghost number_of = { λ r. r.glyph };

    fn number(&self) -> u32 {
        u32::from(self.glyph)
    }
}

/// Whether a glyph's row stands at the glyph's number, as where every glyph has one.
fn is_at_number<V>(rows: &[GlyphRow<V>], glyph: u16) -> bool {
    match rows.get(usize::from(glyph)) {
        Some(row) => row.glyph == glyph,
        None => false,
    }
}

/// A guess at the index of a glyph's row. Since glyphs rise, the row is at its distance from the first glyph or before it;
/// the guess is right where no glyph between the row there and the glyph's own lacks a row.
fn likely_index<V>(rows: &[GlyphRow<V>], glyph: u16) -> usize {
    if is_at_number(rows, glyph) {
        return usize::from(glyph);
    }
    let (Some(first), Some(last)) = (rows.first(), rows.last()) else {
        return 0;
    };
    let farthest = usize::from(glyph.saturating_sub(first.glyph));
    let (index, row) = match rows.get(farthest) {
        Some(row) => (farthest, row),
        None => (rows.len() - 1, last),
    };
    index.saturating_sub(usize::from(row.glyph.saturating_sub(glyph)))
}

/// A table's value for a glyph, none where it has no row of the glyph: at once where the guess is right, as almost
/// always in tables of advances, else in logarithmic time.
#[tactic(auto, using(buffer_rows::proofs::Searched::row_of_number))]
pub fn find_value<V: Copy>(rows: &SortedRows<GlyphRow<V>>, glyph: u16) -> Option<V>
    ensures { result ≡ value_of glyph rows.now }
{
    match rows.get_near(glyph, likely_index(rows.as_slice(), glyph)) {
        Some(row) => Some(row.value),
        None => None,
    }
}

/// Puts a value in the place of a glyph's, in logarithmic time; whether the table has a row of the glyph.
#[tactic(auto, using(buffer_rows::proofs::Replaced::number_replaced, crate::proofs::Valued::is_found))]
pub fn set_value<V: Copy>(rows: &mut SortedRows<GlyphRow<V>>, glyph: u16, value: V) -> bool
    ensures found { result ≡ is_some (value_of glyph rows.old) }
    ensures set { rows.new ≡ with_value glyph value rows.old }
{
    rows.replace(GlyphRow { glyph, value })
}

impl<V> Covers for GlyphRow<V> {
    ghost covers = { λ r g. r.glyph == g };

    fn collect<D: hb_set_digest_ext>(&self, digest: &mut D) {
        digest.add(self.glyph);
    }
}
