//! Glyphs that are moved to the front of a range of a buffer.
ghost use Rattle.std.specs.Prelude.{◌≡◌, ◌≤◌, ◌+◌, drop, length, slice_range};
ghost use Rattle.buffer_core.specs.Sides.{all_glyphs, items_of};
ghost use Rattle.buffer_stages.specs.Ready.{IsReady};
ghost use Rattle.buffer_stages.specs.Moves.{reach};
ghost use Rattle.buffer_stages.specs.Fronts.{moves_to_front};
ghost use Rattle.buffer_stages.specs.SyllableBuffers.{IsRewritten};
ghost use Rattle.buffer_stages.specs.Parts.{fronts_moved};

use crate::fronts::{FrontRule, gather_after};
use crate::moves::order_kept;
use buffer_core::buffer::hb_buffer_t;

/// Moves the glyphs that the rule picks among those after the first `walked`, from `start` up to before `end`, before
/// these, one after another, each merged with the glyphs that it passes; `merged` glyphs are those up to the last of
/// these, and at least one. It takes no memory, and n glyphs take the time of n log n.
pub fn move_fronts<R: FrontRule>(
    rule: &R,
    buffer: &mut hb_buffer_t,
    start: usize,
    end: usize,
    walked: usize,
    merged: usize,
)
    requires ready { IsReady buffer.old }
    requires ordered { start + walked ≤ end }
    requires within { end ≤ length (all_glyphs buffer.old) }
    requires last { merged ≡ reach 1 (moves_to_front (R.pairs rule.now) (R.ones rule.now) walked
        (drop walked (slice_range (items_of buffer.old) start end))) }
    requires fits { start + merged ≤ end }
    ensures { IsRewritten (fronts_moved (R.pairs rule.now) (R.ones rule.now) walked
        (slice_range (items_of buffer.old) start end)) start end
        buffer.old buffer.new }
{
    buffer.merge_clusters(start, start + merged);
    let known = order_kept(buffer, start, start + merged);
    gather_after(rule, buffer.info_slice_mut(), start, start + walked, end);
    buffer.keep_order(known);
}
