//! The font's glyphs of characters, which are remembered during the first round.
ghost use Rattle.std.specs.Prelude.{◌≡◌};
ghost use Rattle.shape_normalize.specs.KnownGlyphs.{HaveGlyphs};

use crate::normalizing::Normalizing;

/// How many characters of a long text have their glyphs remembered at once: those of a script mostly have rows of their
/// own. The number of rows is a power of two.
pub(crate) const GLYPH_ROWS: usize = 128;

/// A character and the font's glyph for it, if there is one. It only saves time: the same would be found again.
#[derive(Clone, Copy)]
pub(crate) struct KnownGlyph {
    pub character: u32,
    pub glyph: Option<u32>,
}

/// The font's glyph for a character, remembered where there are rows. (Inlined, so that a short text, which has none,
/// takes no call for them.)
#[inline(always)]
pub(crate) fn remembered_glyph<N: Normalizing>(
    by: &N,
    rows: &mut [Option<KnownGlyph>],
    u: u32,
) -> Option<u32>
    requires { HaveGlyphs (N.normalizer by.now) rows.old }
    ensures value { result ≡ (N.normalizer by.now).glyph_of u }
    ensures rows { HaveGlyphs (N.normalizer by.now) rows.new }
{
    if rows.is_empty() {
        return by.glyph(u);
    }
    glyph_by_rows(by, rows, u)
}

/// The font's glyph for a character: remembered in the row of its number's low bits, or found, and remembered from now
/// on. (Not inlined, so that the look-up without rows is.)
#[inline(never)]
#[tactic(auto, using(crate::proofs::KnownGlyphs::row_glyph, crate::proofs::KnownGlyphs::row_set))]
fn glyph_by_rows<N: Normalizing>(by: &N, rows: &mut [Option<KnownGlyph>], u: u32) -> Option<u32>
    requires { HaveGlyphs (N.normalizer by.now) rows.old }
    ensures value { result ≡ (N.normalizer by.now).glyph_of u }
    ensures rows { HaveGlyphs (N.normalizer by.now) rows.new }
{
    let at = u as usize & rows.len().wrapping_sub(1);
    if rows.len() <= at {
        return by.glyph(u);
    }
    if let Some(row) = rows[at]
        && row.character == u
    {
        return row.glyph;
    }
    let glyph = by.glyph(u);
    rows[at] = Some(KnownGlyph {
        character: u,
        glyph,
    });
    glyph
}
