//! The normalizer's requests to a font, to tables and to a shaper.
ghost use Rattle.std.specs.Prelude.{◌≡◌, ◌≤◌, List, length};
ghost use Rattle.buffer_glyphs.specs.Items.{Item};
ghost use Rattle.buffer_core.specs.Sides.{all_glyphs};
ghost use Rattle.buffer_stages.specs.Ready.{IsReady};
ghost use Rattle.buffer_properties.specs.Normalizer.{Normalizer};
ghost use Rattle.buffer_stages.specs.Rearranged.{Rearranges};

use buffer_core::buffer::hb_buffer_t;
use buffer_properties::NormalizationMode;
use buffer_unicode_tables::UnicodeTables;

/// The normalizer's requests to a font, tables and a shaper. A number that is no character has no glyph and no
/// decomposition, and composes with nothing.
pub trait Normalizing {
    ghost normalizer: { Self → Normalizer };

    /// The form in which the shaper prefers characters.
    fn mode(&self) -> NormalizationMode
        ensures { result ≡ (normalizer self.now).mode };

    /// The tables of character properties.
    fn tables(&self) -> &UnicodeTables
        ensures { result.now ≡ (normalizer self.now).tables };

    /// The font's glyph for a character.
    fn glyph(&self, u: u32) -> Option<u32>
        ensures { result ≡ (normalizer self.now).glyph_of u };

    /// The font's glyph for a character and a variation selector.
    fn variant(&self, u: u32, selector: u32) -> Option<u32>
        ensures { result ≡ (normalizer self.now).variant_of u selector };

    /// The glyph of invisible characters.
    fn invisible(&self) -> Option<u32>
        ensures { result ≡ (normalizer self.now).invisible };

    /// The glyph of a selector that the font doesn't combine with the character before it.
    fn unjoined_glyph(&self) -> Option<u32>
        ensures { result ≡ (normalizer self.now).unjoined_glyph };

    /// The glyph of a character that the font lacks.
    fn not_found(&self) -> u32
        ensures { result ≡ (normalizer self.now).not_found };

    /// The two halves of a character's decomposition; the second is U+0000 where there is only one.
    fn decompose(&self, ab: u32) -> Option<(char, char)>
        ensures { result ≡ (normalizer self.now).splits ab };

    /// The composition of two characters.
    fn compose(&self, a: u32, b: u32) -> Option<char>
        ensures { result ≡ (normalizer self.now).composes a b };

    /// Performs the shaper's `reorder_marks` on the run `start..end`, which is sorted by combining class.
    fn reorder_marks(&self, buffer: &mut hb_buffer_t, start: usize, end: usize)
        requires ready { IsReady buffer.old }
        requires ordered { start ≤ end }
        requires within { end ≤ length (all_glyphs buffer.old) }
        ensures { Rearranges (normalizer self.now).reorders start end buffer.old buffer.new };

    ghost keeps_count: { (s : Self) (run : List Item) → length ((normalizer s).reorders run).items ≡ length run };
}
