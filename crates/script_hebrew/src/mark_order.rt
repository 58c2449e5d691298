//! The order of a run of Hebrew marks, the shaper's reorder_marks (rustybuzz: hb/ot_shaper_hebrew.rs).
//!
//! Arabic's order has the same types and clauses, by another rule.
ghost use Rattle.std.specs.Prelude.{◌≤◌, length};
ghost use Rattle.buffer_core.specs.Sides.{all_glyphs};
ghost use Rattle.buffer_stages.specs.Ready.{IsReady};
ghost use Rattle.buffer_stages.specs.Rearranged.{Rearranges};
ghost use Rattle.script_hebrew.specs.MarkOrder.{hebrew_order};

use crate::hebrew;
use buffer_core::buffer::hb_buffer_t;

/// Reorders a run of marks as the Hebrew shaper does (`reorder_marks`). It takes linear time and no memory.
pub fn reorder_marks(buffer: &mut hb_buffer_t, start: usize, end: usize)
    requires ready { IsReady buffer.old }
    requires ordered { start ≤ end }
    requires within { end ≤ length (all_glyphs buffer.old) }
    ensures { Rearranges hebrew_order start end buffer.old buffer.new }
{
    hebrew::reorder_marks(buffer, start, end);
}
