//! The laws on plain texts.
ghost use Rattle.shape_laws.specs.PlainTexts.{PlainTextsAreShown, PlainTextsShowGlyphs};

/// A plain text reads as the font's glyph of each character, in order, with its width and no offset: for a font without tables
/// of layout, a line from left to right, a script that does not run against it, and characters of the font of which none is a
/// mark, a space or ignorable, whatever features are asked for, also on parts of the text.
#[tactic(auto, using(crate::proofs::Plain::Whole::plain_texts_show_glyphs))]
pub fn law_plain_texts_show_glyphs()
    ensures { PlainTextsShowGlyphs }
{}

/// So `shape` shows it: each character as the font's glyph, in order, with the glyph's width and no offset, for a text whose
/// script has the default shaper, or which has none.
#[tactic(auto, using(crate::proofs::Plain::Shown::plain_texts_are_shown))]
pub fn law_plain_texts_are_shown()
    ensures { PlainTextsAreShown }
{
    law_plain_texts_show_glyphs();
}
