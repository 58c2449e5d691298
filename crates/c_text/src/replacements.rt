//! The glyphs that a client sets for characters that have none to be seen.
ghost use Rattle.std.specs.Prelude.{◌≡◌};
ghost use Rattle.buffer_core.specs.Settings.{number_set};
ghost use Rattle.buffer_wrappers.specs.Wrappers.{IsText};
ghost use Rattle.c_text.specs.Replacements.{invisible_numbered, with_replacements};

use buffer_core::buffer::hb_buffer_t;
use buffer_glyphs::names::GlyphId;

/// The glyphs of default ignorables, 0 for the font's space (`hb_buffer_set_invisible_glyph`), and of characters that the font
/// lacks (`hb_buffer_set_not_found_glyph`).
#[derive(Clone, Copy)]
pub struct ReplacementGlyphs {
    pub invisible: u16,
    pub not_found: u16,
}

pub const NO_REPLACEMENTS: ReplacementGlyphs = ReplacementGlyphs {
    invisible: 0,
    not_found: 0,
};

/// The glyph of default ignorables by its number, none that is set for 0.
fn invisible_numbered(number: u16) -> Option<GlyphId>
    ensures { number_set result ≡ invisible_numbered number }
{
    if number == 0 {
        return None;
    }
    Some(GlyphId(number))
}

/// Sets replacements in a buffer that holds a text.
#[tactic(auto, using(crate::proofs::Replacing::text_replaced))]
pub fn put_replacements(replacements: ReplacementGlyphs, buffer: &mut hb_buffer_t)
    requires { IsText buffer.old }
    ensures set { buffer.new ≡ with_replacements replacements buffer.old }
    ensures text { IsText buffer.new }
{
    buffer.set_invisible(invisible_numbered(replacements.invisible));
    buffer.set_not_found(GlyphId(replacements.not_found));
}
