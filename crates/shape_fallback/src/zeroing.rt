//! Zeroes the advances of marks (rustybuzz: hb/ot_shape.rs, zero_mark_widths_by_gdef; hb/ot_shape_fallback.rs).
ghost use Rattle.std.specs.Prelude.{◌≡◌, unwrap_or};
ghost use Rattle.std.specs.List.{list_any};
ghost use Rattle.buffer_glyphs.specs.LigatureWords.{is_mark};
ghost use Rattle.buffer_glyphs.specs.Items.{item_of};
ghost use Rattle.buffer_core.specs.Readings.{always};
ghost use Rattle.buffer_stages.specs.Ready.{IsDone, IsReady};
ghost use Rattle.shape_fallback.specs.Zeroing.{mark_zeroed, with_marks_zeroed};

use crate::SEVERAL;
use buffer_core::buffer::hb_buffer_t;
use buffer_glyphs::info::hb_glyph_info_t;
use buffer_glyphs::ligature_words::_hb_glyph_info_is_mark;
use buffer_glyphs::position::GlyphPosition;
use buffer_stages::positions::change_positions;
use layout_offsets::zeroing::zeroed;

/// Zeroes the advances of glyphs of GDEF class MARK. With `adjust_offsets`, which is for forward text in a font without
/// mark positioning, each is shifted back by the advance that it had. It takes linear time and no memory.
#[tactic(auto, using(crate::proofs::Untouched::widths_stay))]
pub fn zero_mark_widths_by_gdef(buffer: &mut hb_buffer_t, adjust_offsets: bool)
    requires { IsReady buffer.old }
    ensures { IsDone (always (with_marks_zeroed adjust_offsets)) buffer.old buffer.new }
{
    // Finding a mark takes less than rewriting every position, and most texts have none.
    if has_mark_glyph(buffer.info_slice()) {
        zero_each_width(buffer, adjust_offsets);
    }
}

/// Whether one of the glyphs is of GDEF class MARK.
fn has_mark_glyph(glyphs: &[hb_glyph_info_t]) -> bool
    ensures { result ≡ list_any (λ g. is_mark (item_of g)) glyphs.now }
{
    if glyphs.len() < SEVERAL {
        return glyphs.iter().any(|glyph| _hb_glyph_info_is_mark(glyph));
    }
    let mut any = false;
    for glyph in glyphs {
        any |= _hb_glyph_info_is_mark(glyph);
    }
    any
}

fn zero_each_width(buffer: &mut hb_buffer_t, adjust_offsets: bool)
    requires { IsReady buffer.old }
    ensures { IsDone (always (with_marks_zeroed adjust_offsets)) buffer.old buffer.new }
{
    change_positions(
        buffer,
        |glyph, position| mark_zeroed(adjust_offsets, glyph, position),
    );
}

fn mark_zeroed(
    adjust: bool,
    glyph: &hb_glyph_info_t,
    position: GlyphPosition,
) -> Option<GlyphPosition>
    ensures { unwrap_or result position ≡ mark_zeroed adjust (item_of glyph.now) position }
{
    if _hb_glyph_info_is_mark(glyph) {
        Some(zeroed(adjust, position))
    } else {
        None
    }
}
