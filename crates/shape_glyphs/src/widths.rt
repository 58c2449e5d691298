//! Zeroes the positions of default ignorables, zero_width_default_ignorables (rustybuzz: hb/ot_shape.rs).
ghost use Rattle.std.specs.Prelude.{◌≡◌};
ghost use Rattle.buffer_glyphs.specs.Items.{item_of};
ghost use Rattle.buffer_core.specs.Readings.{always};
ghost use Rattle.buffer_stages.specs.Ready.{IsReady};
ghost use Rattle.buffer_stages.specs.PositionMaps.{with_positions_mapped};
ghost use Rattle.buffer_stages.specs.Stages.{IsFollowed};
ghost use Rattle.shape_glyphs.specs.Widths.{ignorable_position, keeps_widths, widthless, zero_widths};

use crate::ignorables::has_ignorable;
use bitflags::Flags;
use buffer_common::constants::BufferFlags;
use buffer_core::buffer::hb_buffer_t;
use buffer_glyphs::info::hb_glyph_info_t;
use buffer_glyphs::position::GlyphPosition;
use buffer_glyphs::property_words::_hb_glyph_info_is_default_ignorable;
use buffer_stages::positions::map_positions;

/// Zeroes the positions of default ignorables, unless PRESERVE_DEFAULT_IGNORABLES or REMOVE_DEFAULT_IGNORABLES is set.
/// It takes linear time and no memory.
pub fn zero_width_default_ignorables(buffer: &mut hb_buffer_t)
    requires { IsReady buffer.old }
    ensures { IsFollowed (always (zero_widths buffer.old.flags)) buffer.old buffer.new }
{
    if keeps_widths(buffer.flags()) {
        return;
    }
    zero_widths(buffer);
}

fn keeps_widths(flags: BufferFlags) -> bool
    ensures { result ≡ keeps_widths flags }
{
    flags.contains(BufferFlags::PRESERVE_DEFAULT_IGNORABLES)
        || flags.contains(BufferFlags::REMOVE_DEFAULT_IGNORABLES)
}

#[tactic(auto, using(crate::proofs::Shown::widths_stay))]
fn zero_widths(buffer: &mut hb_buffer_t)
    requires { IsReady buffer.old }
    ensures { IsFollowed (always (with_positions_mapped ignorable_position)) buffer.old buffer.new }
{
    // Most texts have no default ignorable, and finding that takes less than rewriting every position.
    if has_ignorable(buffer.info_slice()) {
        zero_each_width(buffer);
    }
}

fn zero_each_width(buffer: &mut hb_buffer_t)
    requires { IsReady buffer.old }
    ensures { IsFollowed (always (with_positions_mapped ignorable_position)) buffer.old buffer.new }
{
    map_positions(
        buffer,
        |glyph, position| ignorable_position(glyph, position),
    );
}

fn ignorable_position(glyph: &hb_glyph_info_t, position: GlyphPosition) -> GlyphPosition
    ensures { result ≡ ignorable_position (item_of glyph.now) position }
{
    if _hb_glyph_info_is_default_ignorable(glyph) {
        widthless(position)
    } else {
        position
    }
}

pub(crate) fn widthless(position: GlyphPosition) -> GlyphPosition
    ensures { result ≡ widthless position }
{
    GlyphPosition {
        x_advance: 0,
        y_advance: 0,
        x_offset: 0,
        y_offset: 0,
        ..position
    }
}
