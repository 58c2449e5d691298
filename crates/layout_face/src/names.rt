//! The names and boxes of a font's glyphs, for printing.

use crate::face::Face;
use buffer_glyphs::names::{GlyphId, GlyphNames, hb_glyph_extents_t};

impl GlyphNames for Face {
    ghost use Rattle.layout_common.specs.Rows.{value_of};
    ghost use Rattle.layout_face.specs.Glyphs as Glyphs;

    ghost name_of = { λ font glyph. Glyphs.name_of glyph font };

    ghost extents_of = { λ font glyph. value_of glyph font.extents };

    fn glyph_name(&self, glyph: GlyphId) -> Option<&str> {
        Face::glyph_name(self, glyph.0)
    }

    fn glyph_extents(&self, glyph: GlyphId) -> Option<hb_glyph_extents_t> {
        Face::glyph_extents(self, glyph.0)
    }
}
