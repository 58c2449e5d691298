//! Replaces the character at the cursor by another one with its glyph (rustybuzz: hb/ot_shape_normalize.rs).
ghost use Rattle.std.specs.Prelude.{◌≡◌, ◌<◌, IfErr, OnOk};
ghost use Rattle.buffer_stages.specs.Appending.{RefusesRoomFor};
ghost use Rattle.shape_normalize.specs.Glyphs.{with_glyph_replaced};
ghost use Rattle.buffer_core.specs.Sides.{HasCurrent};

use crate::composing::write_ahead;
use buffer_core::buffer::hb_buffer_t;
use buffer_glyphs::cause::ShapeCause;
use buffer_glyphs::info::hb_glyph_info_t;

/// Replaces the current glyph by another one, and moves the cursor over it (`next_char`). An output in place stays
/// there, and then it takes no memory.
#[tactic(auto, using(crate::proofs::Put::replaced_ahead))]
pub(crate) fn output_replacement(
    info: hb_glyph_info_t,
    buffer: &mut hb_buffer_t,
) -> Result<(), ShapeCause>
    requires current { HasCurrent buffer.old }
    ensures ok { OnOk result (buffer.new ≡ with_glyph_replaced info buffer.old) }
    ensures err { IfErr result (λ e. RefusesRoomFor 1 e buffer.old) }
{
    write_ahead(0, info, buffer);
    if !buffer.next_glyph()? {
        return Err(ShapeCause::TooLong);
    }
    Ok(())
}
