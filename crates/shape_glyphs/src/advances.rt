//! The default advances and origins of glyphs, position_default (rustybuzz: hb/ot_shape.rs).
//!
//! A stage on positions is a call, its walk by `map_positions`, and the rule for one glyph; all such stages have this
//! form.
ghost use Rattle.std.specs.Prelude.{◌≡◌};
ghost use Rattle.shape_glyphs.specs.Advances.{default_position, on_horizontal_line, on_line, on_vertical_line, with_default_positions};
ghost use Rattle.buffer_glyphs.specs.Items.{item_of};
ghost use Rattle.buffer_core.specs.Readings.{always};
ghost use Rattle.buffer_stages.specs.Ready.{IsDone, IsReady};

use buffer_common::direction::Direction;
use buffer_core::buffer::hb_buffer_t;
use buffer_glyphs::info::hb_glyph_info_t;
use buffer_glyphs::position::GlyphPosition;
use buffer_stages::positions::map_positions;
use layout_face::Face;
use layout_offsets::sums::minus;

/// Sets each glyph's advance to the font's, in font units along the line (`position_default`); in a vertical text the
/// font's vertical origin is subtracted from its offsets. It takes linear time and no memory.
pub fn position_default(face: &Face, buffer: &mut hb_buffer_t)
    requires { IsReady buffer.old }
    ensures { IsDone (always (with_default_positions face.now)) buffer.old buffer.new }
{
    let direction = buffer.direction();
    map_positions(
        buffer,
        |glyph, position| default_position(direction, face, glyph, position),
    );
}

fn default_position(
    direction: Direction,
    face: &Face,
    glyph: &hb_glyph_info_t,
    position: GlyphPosition,
) -> GlyphPosition
    ensures { result ≡ default_position direction face.now (item_of glyph.now) position }
{
    match u16::try_from(glyph.glyph_id) {
        Ok(glyph) => on_line(direction, face, glyph, position),
        Err(_) => position,
    }
}

fn on_line(direction: Direction, face: &Face, glyph: u16, position: GlyphPosition) -> GlyphPosition
    ensures { result ≡ on_line direction face.now glyph position }
{
    if direction.is_horizontal() {
        on_horizontal_line(face, glyph, position)
    } else {
        on_vertical_line(face, glyph, position)
    }
}

fn on_horizontal_line(face: &Face, glyph: u16, position: GlyphPosition) -> GlyphPosition
    ensures { result ≡ on_horizontal_line face.now glyph position }
{
    GlyphPosition {
        x_advance: face.glyph_h_advance(glyph),
        ..position
    }
}

fn on_vertical_line(face: &Face, glyph: u16, position: GlyphPosition) -> GlyphPosition
    ensures { result ≡ on_vertical_line face.now glyph position }
{
    GlyphPosition {
        y_advance: face.glyph_v_advance(glyph),
        x_offset: minus(position.x_offset, face.glyph_h_origin(glyph)),
        y_offset: minus(position.y_offset, face.glyph_v_origin(glyph)),
        ..position
    }
}
