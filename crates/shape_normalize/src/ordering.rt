//! The second round: sorts each run of marks by combining class, and calls the shaper's reorder_marks
//! (rustybuzz: hb/ot_shape_normalize.rs).
ghost use Rattle.std.specs.Prelude.{◌≡◌, ◌<◌, ◌≤◌, ◌++◌, ◌∷◌, [], false, length, map, take, drop, slice_get, slice_range, Some, IfErr, IfOk, OnOk};
ghost use Rattle.buffer_glyphs.specs.Events.{Sort};
ghost use Rattle.buffer_glyphs.specs.Items.{item_of};
ghost use Rattle.buffer_lists.specs.Events.{order_of};
ghost use Rattle.buffer_core.specs.Sides.{all_glyphs, items_of, origins_by, origins_of};
ghost use Rattle.buffer_core.specs.Sorting.{with_range_sorted};
ghost use Rattle.buffer_stages.specs.Ready.{IsReady};
ghost use Rattle.buffer_rows.specs.KeyOrder.{key_order};
ghost use Rattle.buffer_properties.specs.Characters.{mark_class};
ghost use Rattle.buffer_properties.specs.Ordering.{arranged_run, ordered_list};
ghost use Rattle.buffer_stages.specs.Rearranged.{IsRearranged, Rearranges};
ghost use Rattle.shape_normalize.specs.Runs.{in_class_order, Meets};

use crate::characters::mark_class;
use crate::normalizing::Normalizing;
use buffer_core::buffer::hb_buffer_t;
use buffer_glyphs::cause::ShapeCause;
use buffer_glyphs::info::hb_glyph_info_t;
use buffer_properties::MAX_COMBINING_MARKS;
use std::alloc::{AllocError, Global};

/// Sorts the items `start..end` by combining class, stably; each smallest range that this permutes is merged.
fn sort_marks(
    alloc: Global,
    start: usize,
    end: usize,
    buffer: &mut hb_buffer_t,
) -> Result<(), AllocError>
    requires closed { buffer.old.is_open ≡ false }
    requires ordered { start ≤ end }
    requires within { end ≤ length (all_glyphs buffer.old) }
    ensures sorted { OnOk result
        (buffer.new ≡ with_range_sorted start end (λ g. mark_class (item_of g)) buffer.old) }
    ensures items { OnOk result (items_of buffer.new
        ≡ take start (items_of buffer.old) ++ key_order mark_class (slice_range (items_of buffer.old) start end)
        ++ drop end (items_of buffer.old)) }
    ensures origins { OnOk result (origins_of buffer.new
        ≡ origins_by (Sort start (order_of (map mark_class (slice_range (items_of buffer.old) start end))) ∷ [])
        buffer.old) }
    ensures count { length (all_glyphs buffer.new) ≡ length (all_glyphs buffer.old) }
{
    buffer.sort(alloc, start, end, |glyph| u32::from(mark_class(glyph)))
}

/// Sorts a run of marks by combining class.
fn sort_run(
    alloc: Global,
    start: usize,
    end: usize,
    buffer: &mut hb_buffer_t,
) -> Result<(), ShapeCause>
    requires ready { IsReady buffer.old }
    requires ordered { start ≤ end }
    requires within { end ≤ length (all_glyphs buffer.old) }
    ensures ok { OnOk result (Rearranges in_class_order start end buffer.old buffer.new) }
    ensures ready { OnOk result (IsReady buffer.new) }
    ensures count { OnOk result (length (all_glyphs buffer.new) ≡ length (all_glyphs buffer.old)) }
    ensures err { IfErr result (λ e. e ≡ ShapeCause.OutOfMemory) }
{
    sort_marks(alloc, start, end, buffer)?;
    Ok(())
}

/// Sorts a run of marks, and calls the shaper's `reorder_marks`; a run of more than 32 marks is unchanged.
fn arrange_run<N: Normalizing>(
    by: &N,
    alloc: Global,
    start: usize,
    end: usize,
    buffer: &mut hb_buffer_t,
) -> Result<(), ShapeCause>
    requires ready { IsReady buffer.old }
    requires ordered { start ≤ end }
    requires within { end ≤ length (all_glyphs buffer.old) }
    ensures ok { OnOk result (Rearranges (arranged_run (N.normalizer by.now).reorders) start end
        buffer.old buffer.new) }
    ensures count { OnOk result (length (all_glyphs buffer.new) ≡ length (all_glyphs buffer.old)) }
    ensures err { IfErr result (λ e. e ≡ ShapeCause.OutOfMemory) }
{
    let count = end - start;
    if count == 0 {
        return Ok(());
    }
    if MAX_COMBINING_MARKS < count {
        return Ok(());
    }
    sort_run(alloc, start, end, buffer)?;
    by.reorder_marks(buffer, start, end);
    Ok(())
}

fn item_at(i: usize, buffer: &hb_buffer_t) -> hb_glyph_info_t
    requires ready { IsReady buffer.now }
    requires there { i < length (all_glyphs buffer.now) }
    ensures { slice_get (all_glyphs buffer.now) i ≡ Some result }
{
    buffer.info_slice()[i]
}

/// Extends the run that begins at `start` by one item, or ends it; returns where the next run begins.
fn arrange_next<N: Normalizing>(
    by: &N,
    alloc: Global,
    start: usize,
    i: usize,
    buffer: &mut hb_buffer_t,
) -> Result<usize, ShapeCause>
    requires ready { IsReady buffer.old }
    requires ordered { start ≤ i }
    requires there { i < length (all_glyphs buffer.old) }
    ensures ok { IfOk result (λ n. Meets (N.normalizer by.now).reorders start i n buffer.old buffer.new) }
    ensures err { IfErr result (λ e. e ≡ ShapeCause.OutOfMemory) }
{
    // The number of glyphs bounds `i + 1`.
    let _count = buffer.len();
    let glyph = item_at(i, buffer);
    if mark_class(&glyph) != 0 {
        return Ok(start);
    }
    // Most characters have no mark before them.
    if start == i {
        return Ok(i + 1);
    }
    arrange_run(by, alloc, start, i, buffer)?;
    Ok(i + 1)
}

/// Sorts each run of marks by combining class in place, and calls the shaper's `reorder_marks` on it; runs of more than
/// 32 marks are unchanged. It takes linear time.
///
/// # Errors
///
/// Lack of memory.
pub(crate) fn arrange_runs<N: Normalizing>(
    by: &N,
    alloc: Global,
    buffer: &mut hb_buffer_t,
) -> Result<(), ShapeCause>
    requires ready { IsReady buffer.old }
    ensures ok { OnOk result (IsRearranged [] (ordered_list (N.normalizer by.now).reorders (items_of buffer.old)) []
        buffer.old buffer.new) }
    ensures err { IfErr result (λ e. e ≡ ShapeCause.OutOfMemory) }
{
    let count = buffer.len();
    let mut start = 0;
    for i in 0..count {
        start = arrange_next(by, alloc, start, i, buffer)?;
    }
    arrange_run(by, alloc, start, count, buffer)?;
    Ok(())
}
