//! The names and extents of glyphs, for printing.
ghost use Rattle.std.specs.Prelude.{◌≡◌, ℕ, List, Option};
ghost use Rattle.std.specs.Option.{option_copied};
ghost use Rattle.buffer_glyphs.specs.declared.names.hb_glyph_extents_t.{hb_glyph_extents_t};

/// The number of a glyph of a font.
#[derive(Clone, Copy, PartialEq, Eq, Debug, Default)]
pub struct GlyphId(pub u16);

/// The box of a glyph's ink in font units; the height is negative where y grows upward.
#[derive(Clone, Copy, PartialEq, Eq, Debug, Default)]
pub struct hb_glyph_extents_t {
    pub x_bearing: i32,
    pub y_bearing: i32,
    pub width: i32,
    pub height: i32,
}

/// The names and boxes of a font's glyphs, for a printer of glyphs.
pub trait GlyphNames {
    ghost name_of: { Self → ℕ → Option (List ℕ) };

    ghost extents_of: { Self → ℕ → Option hb_glyph_extents_t };

    /// The glyph's name, where it has one.
    fn glyph_name(&self, glyph: GlyphId) -> Option<&str>
        ensures { option_copied result ≡ name_of self.now glyph.0 };

    /// The glyph's box, where it has one.
    fn glyph_extents(&self, glyph: GlyphId) -> Option<hb_glyph_extents_t>
        ensures { result ≡ extents_of self.now glyph.0 };
}
