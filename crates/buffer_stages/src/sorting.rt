//! The stable order of a range by the `auxiliary` number of its glyphs.
ghost use Rattle.std.specs.Prelude.{◌≡◌, ◌≤◌, ◌++◌, ◌∷◌, [], false, drop, length, map, slice_range, take, OnOk};
ghost use Rattle.buffer_rows.specs.KeyOrder.{key_order};
ghost use Rattle.buffer_glyphs.specs.Events.{Sort};
ghost use Rattle.buffer_lists.specs.Events.{order_of};
ghost use Rattle.buffer_core.specs.Sides.{all_glyphs, items_of, origins_by, origins_of};
ghost use Rattle.buffer_core.specs.Sorting.{with_range_sorted};
ghost use Rattle.buffer_stages.specs.Ready.{IsReady};
ghost use Rattle.buffer_stages.specs.Ordering.{auxiliary_order};
ghost use Rattle.buffer_stages.specs.SyllableBuffers.{IsRewritten};

use buffer_core::buffer::hb_buffer_t;
use std::alloc::{AllocError, Global};

/// Puts the glyphs from `start` up to before `end` in stable order by their `auxiliary` numbers, and merges each
/// smallest span that the order permutes.
///
/// # Errors
///
/// Want of memory for the order.
pub fn sort_by_auxiliary(
    alloc: Global,
    buffer: &mut hb_buffer_t,
    start: usize,
    end: usize,
) -> Result<(), AllocError>
    requires ready { IsReady buffer.old }
    requires ordered { start ≤ end }
    requires within { end ≤ length (all_glyphs buffer.old) }
    ensures { OnOk result (IsRewritten (auxiliary_order (slice_range (items_of buffer.old) start end)) start end
        buffer.old buffer.new) }
{
    sort_glyphs(alloc, buffer, start, end)?;
    Ok(())
}

fn sort_glyphs(
    alloc: Global,
    buffer: &mut hb_buffer_t,
    start: usize,
    end: usize,
) -> Result<(), AllocError>
    requires closed { buffer.old.is_open ≡ false }
    requires ordered { start ≤ end }
    requires within { end ≤ length (all_glyphs buffer.old) }
    ensures sorted { OnOk result (buffer.new ≡ with_range_sorted start end (λ g. g.auxiliary) buffer.old) }
    ensures items { OnOk result (items_of buffer.new
        ≡ take start (items_of buffer.old) ++ key_order (λ x. x.auxiliary) (slice_range (items_of buffer.old) start end)
        ++ drop end (items_of buffer.old)) }
    ensures origins { OnOk result (origins_of buffer.new
        ≡ origins_by (Sort start (order_of (map (λ x. x.auxiliary) (slice_range (items_of buffer.old) start end))) ∷ [])
        buffer.old) }
    ensures count { length (all_glyphs buffer.new) ≡ length (all_glyphs buffer.old) }
{
    buffer.sort(alloc, start, end, |glyph| u32::from(glyph.auxiliary))
}
