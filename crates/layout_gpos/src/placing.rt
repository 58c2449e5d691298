//! Positions changed at the cursor, and the cursor moved on.
ghost use Rattle.std.specs.Prelude.{ℕ, ◌≡◌, ◌<◌, ◌≤◌, false, true, [], length};
ghost use Rattle.buffer_core.specs.Sides.{after_next_glyphs};
ghost use Rattle.layout_gpos.specs.Values.{with_adjusted_position};

use crate::value::adjust;
use buffer_core::buffer::hb_buffer_t;
use layout_tables::value::ValueRecord;

/// Adjusts the position of a glyph, by its index.
#[tactic(auto, using(crate::proofs::Lemmas::Placed::adjusted_back))]
pub fn adjust_glyph(buffer: &mut hb_buffer_t, at: usize, value: ValueRecord)
    requires closed { buffer.old.is_open ≡ false }
    requires here { at < length buffer.old.positions }
    ensures { buffer.new ≡ record buffer.old {
      positions = with_adjusted_position buffer.old.direction at value
          buffer.old.positions;
    } }
{
    let direction = buffer.direction();
    adjust(buffer.pos_slice_mut(), at, value, direction);
}

/// Moves the cursor over glyphs; without an output that takes no memory and is never refused.
pub fn pass(buffer: &mut hb_buffer_t, count: usize)
    requires closed { buffer.old.is_open ≡ false }
    requires there { count ≤ length buffer.old.ahead }
    ensures { buffer.new ≡ after_next_glyphs count buffer.old }
{
    // Without an output the answer is always `Ok(true)`.
    let _passed = buffer.next_glyphs(count);
}
