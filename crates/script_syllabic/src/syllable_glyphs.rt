//! The glyphs of a syllable in a buffer.
ghost use Rattle.std.specs.Prelude.{◌≡◌, ◌≤◌, ◌+◌, length, option_map, slice_get, slice_range, IfSome};
ghost use Rattle.buffer_glyphs.specs.Items.{item_of};
ghost use Rattle.buffer_core.specs.Sides.{all_glyphs, items_of};
ghost use Rattle.buffer_stages.specs.Ready.{IsReady};

use buffer_core::buffer::hb_buffer_t;
use buffer_glyphs::info::hb_glyph_info_t;

/// The glyph with an index among the glyphs `start..end`, if there is one.
#[tactic(auto, using(crate::proofs::There::there, crate::proofs::There::none_there))]
pub fn glyph_in(
    buffer: &hb_buffer_t,
    start: usize,
    end: usize,
    index: usize,
) -> Option<hb_glyph_info_t>
    requires ready { IsReady buffer.now }
    requires ordered { start ≤ end }
    requires within { end ≤ length (all_glyphs buffer.now) }
    ensures value { option_map item_of result ≡ slice_get (slice_range (items_of buffer.now) start end) index }
    ensures there { IfSome result (λ _. start + (index + 1) ≤ end) }
{
    let glyphs = buffer.info_slice();
    if index < end - start {
        Some(glyphs[start + index])
    } else {
        None
    }
}
