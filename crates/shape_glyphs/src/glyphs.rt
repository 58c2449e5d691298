//! Maps characters to glyphs, map_glyphs_fast (rustybuzz: hb/ot_shape.rs).
ghost use Rattle.std.specs.Prelude.{◌≡◌, true};
ghost use Rattle.buffer_glyphs.specs.Items.{item_of};
ghost use Rattle.buffer_core.specs.Readings.{always};
ghost use Rattle.buffer_core.specs.Sides.{items_of};
ghost use Rattle.buffer_stages.specs.Buffers.{are_glyphs};
ghost use Rattle.buffer_stages.specs.Ready.{IsDone, IsReady};
ghost use Rattle.buffer_stages.specs.Stages.{IsFollowed};
ghost use Rattle.shape_glyphs.specs.Glyphs.{glyph_or_missing, synthesized_class, with_glyphs, with_synthesized_classes};

use buffer_core::buffer::hb_buffer_t;
use buffer_glyphs::flags::GlyphPropsFlags;
use buffer_glyphs::info::hb_glyph_info_t;
use buffer_glyphs::property_words::_hb_glyph_info_is_default_ignorable;
use buffer_properties::categories::is_nonspacing_mark;
use buffer_stages::glyphs::map_glyphs;

/// Replaces each character by the glyph chosen for it, and by glyph 0 where the number is above 65,535
/// (`map_glyphs_fast`). It takes linear time and no memory.
pub fn map_glyphs_fast(buffer: &mut hb_buffer_t)
    requires { IsReady buffer.old }
    ensures stage { IsFollowed (always with_glyphs) buffer.old buffer.new }
    ensures numbers { are_glyphs (items_of buffer.new) ≡ true }
{
    map_glyphs(
        buffer,
        |glyph| hb_glyph_info_t {
            glyph_id: glyph_or_missing(glyph.glyph_index),
            ..*glyph
        },
    );
}

fn glyph_or_missing(number: u32) -> u32
    ensures { result ≡ glyph_or_missing number }
{
    if number <= 65535 { number } else { 0 }
}

/// Sets glyph classes by the characters, for a font without GDEF classes: nonspacing marks that are no default
/// ignorables are marks, all others base glyphs. It takes linear time and no memory.
pub fn hb_synthesize_glyph_classes(buffer: &mut hb_buffer_t)
    requires { IsReady buffer.old }
    ensures { IsDone (always with_synthesized_classes) buffer.old buffer.new }
{
    map_glyphs(
        buffer,
        |glyph| hb_glyph_info_t {
            glyph_props: synthesized_class(glyph),
            ..*glyph
        },
    );
}

fn synthesized_class(glyph: &hb_glyph_info_t) -> GlyphPropsFlags
    ensures { result.0 ≡ synthesized_class (item_of glyph.now) }
{
    if is_nonspacing_mark(glyph) && !_hb_glyph_info_is_default_ignorable(glyph) {
        GlyphPropsFlags::MARK
    } else {
        GlyphPropsFlags::BASE_GLYPH
    }
}
