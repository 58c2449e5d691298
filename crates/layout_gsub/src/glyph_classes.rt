//! The glyph properties before the first lookup (rustybuzz: hb/ot_shape.rs, hb/ot_layout.rs).
ghost use Rattle.std.specs.Prelude.{◌≡◌};
ghost use Rattle.buffer_core.specs.Readings.{always};
ghost use Rattle.buffer_stages.specs.Ready.{IsDone, IsReady};
ghost use Rattle.layout_gsub.specs.GlyphClasses.{first_props, with_font_classes};

use crate::replacement::glyph_props;
use buffer_core::buffer::hb_buffer_t;
use buffer_glyphs::flags::GlyphPropsFlags;
use buffer_glyphs::info::hb_glyph_info_t;
use buffer_stages::glyphs::map_glyphs;
use layout_face::Face;

/// Sets each glyph's properties to its GDEF class, and clears its ligature word (`hb_ot_layout_substitute_start`). It
/// takes no memory; each glyph takes one search in the font's classes, and a mark one in its attachment classes.
pub fn hb_ot_layout_substitute_start(face: &Face, buffer: &mut hb_buffer_t)
    requires { IsReady buffer.old }
    ensures { IsDone (always (with_font_classes face.now)) buffer.old buffer.new }
{
    _hb_ot_layout_set_glyph_props(face, buffer);
}

/// Sets each glyph's properties to its GDEF class.
pub fn _hb_ot_layout_set_glyph_props(face: &Face, buffer: &mut hb_buffer_t)
    requires { IsReady buffer.old }
    ensures { IsDone (always (with_font_classes face.now)) buffer.old buffer.new }
{
    map_glyphs(
        buffer,
        |glyph| hb_glyph_info_t {
            glyph_props: first_props(face, glyph.glyph_id),
            lig_props: 0,
            ..*glyph
        },
    );
}

fn first_props(face: &Face, glyph: u32) -> GlyphPropsFlags
    ensures { result.0 ≡ first_props face.now glyph }
{
    match u16::try_from(glyph) {
        Ok(glyph) => glyph_props(face, glyph),
        Err(_) => GlyphPropsFlags(0),
    }
}
