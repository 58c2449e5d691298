//! The carets that a font gives inside of runs of glyphs.
ghost use Rattle.std.specs.Prelude.{◌≡◌};
ghost use Rattle.caret_model.specs.Ligatures.{first_carets, run_carets, run_glyphs};

use font_carets::{LigatureCarets, SortedRows, glyph_carets};
use kuspveli::GlyphInfo;
use kuspveli::hb_shape::SourceSlice;

/// The coordinates of the first glyph that has any.
fn first_carets<'a>(ligatures: &'a SortedRows<LigatureCarets>, glyphs: &[GlyphInfo]) -> &'a [i16]
    ensures { result.now ≡ first_carets ligatures.entry.now glyphs.now }
{
    for glyph in glyphs {
        let carets = glyph_carets(ligatures, glyph.glyph_id);
        if !carets.is_empty() {
            return carets;
        }
    }
    &[]
}

/// The glyphs of a run.
fn run_glyphs(glyphs: &[GlyphInfo], slice: SourceSlice) -> &[GlyphInfo]
    ensures { result.now ≡ run_glyphs glyphs.entry.now slice }
{
    if slice.first_glyph <= slice.end_glyph && slice.end_glyph <= glyphs.len() {
        return &glyphs[slice.first_glyph..slice.end_glyph];
    }
    &[]
}

/// The coordinates of the carets that a font gives for a run of glyphs, none without a run.
pub(crate) fn run_carets<'a>(
    ligatures: &'a SortedRows<LigatureCarets>,
    glyphs: &[GlyphInfo],
    slice: Option<SourceSlice>,
) -> &'a [i16]
    ensures { result.now ≡ run_carets ligatures.entry.now glyphs.now slice }
{
    match slice {
        Some(slice) => first_carets(ligatures, run_glyphs(glyphs, slice)),
        None => &[],
    }
}
