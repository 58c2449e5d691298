//! A text on its way through an open output.
ghost use Rattle.std.specs.Prelude.{ℕ, ◌≡◌, ◌≢◌, ◌<◌, ◌≤◌, ◌-◌, ◌+◌, ◌++◌, ◌∷◌, [], Some, true, false, drop, length, replicate, slice_get, take, IfErr, OnOk};
ghost use Rattle.buffer_glyphs.specs.declared.info.hb_glyph_info_t.{hb_glyph_info_t as Glyph};
ghost use Rattle.buffer_glyphs.specs.Items.{clusters, item_of, strip};
ghost use Rattle.buffer_lists.specs.Known.{HasOrder};
ghost use Rattle.buffer_glyphs.specs.Levels.{InOutput};
ghost use Rattle.buffer_glyphs.specs.Events.{Merge, Move, Replace};
ghost use Rattle.buffer_glyphs.specs.Origins.{origin_of, origins};
ghost use Rattle.buffer_core.specs.Sides.{fits_joined, after_sync, HasCurrent};
ghost use Rattle.buffer_stages.specs.Moves.{with_range_moved, order_of_move};
ghost use Rattle.buffer_stages.specs.Walks.{RefusesLength, HasWalked, renumbered_first};

use crate::moves::are_one_cluster;
use buffer_core::buffer::hb_buffer_t;
use buffer_glyphs::cause::ShapeCause;
use buffer_glyphs::info::hb_glyph_info_t;
use buffer_lists::order::KnownOrder;

/// Outputs the glyph at the cursor.
///
/// # Errors
///
/// `TooLong` where the output has as many glyphs as the buffer may hold, or want of memory.
pub fn advance(buffer: &mut hb_buffer_t) -> Result<(), ShapeCause>
    requires current { HasCurrent buffer.old }
    ensures ok { OnOk result (HasWalked (strip buffer.old.behind ++ take 1 (strip buffer.old.ahead))
        (drop 1 (strip buffer.old.ahead)) [] buffer.old buffer.new) }
    ensures err { IfErr result (λ e. RefusesLength (length buffer.old.behind + 1) e buffer.old) }
{
    if !buffer.next_glyph()? {
        return Err(ShapeCause::TooLong);
    }
    Ok(())
}

/// Replaces the glyph at the cursor by another of its cluster and with its flags, and outputs that.
///
/// # Errors
///
/// `TooLong` where the output has as many glyphs as the buffer may hold, or want of memory.
pub fn advance_as(glyph: hb_glyph_info_t, buffer: &mut hb_buffer_t) -> Result<(), ShapeCause>
    requires current { HasCurrent buffer.old }
    requires same { (g : Glyph) → slice_get buffer.old.ahead 0 ≡ Some g → origin_of glyph ≡ origin_of g }
    ensures ok { OnOk result (HasWalked (strip buffer.old.behind ++ item_of glyph ∷ []) (drop 1 (strip buffer.old.ahead))
        [] buffer.old buffer.new) }
    ensures err { IfErr result (λ e. RefusesLength (length buffer.old.behind + 1) e buffer.old) }
{
    if !buffer.output_info(glyph)? {
        return Err(ShapeCause::TooLong);
    }
    buffer.skip_glyph();
    Ok(())
}

/// Replaces the glyph at the cursor by glyphs of its cluster and with its flags, and outputs these.
///
/// # Errors
///
/// `TooLong` where the output would have more glyphs than the buffer may hold, or want of memory.
pub fn replace_current(
    glyphs: &[hb_glyph_info_t],
    buffer: &mut hb_buffer_t,
) -> Result<(), ShapeCause>
    requires current { HasCurrent buffer.old }
    requires same { (g : Glyph) → slice_get buffer.old.ahead 0 ≡ Some g → origins glyphs.now
        ≡ replicate (length glyphs.now) (origin_of g) }
    ensures ok { OnOk result (HasWalked (strip buffer.old.behind ++ strip glyphs.now) (drop 1 (strip buffer.old.ahead))
        (Replace (length buffer.old.behind) 1 (length glyphs.now) ∷ []) buffer.old buffer.new) }
    ensures err { IfErr result (λ e. RefusesLength (length buffer.old.behind + length glyphs.now) e buffer.old) }
{
    for glyph in glyphs {
        if !buffer.output_info(*glyph)? {
            return Err(ShapeCause::TooLong);
        }
    }
    buffer.skip_glyph();
    Ok(())
}

/// Merges the glyphs of the output from `start` up to before `end`. It takes no memory.
pub fn merge_behind(start: usize, end: usize, buffer: &mut hb_buffer_t)
    requires open { buffer.old.is_open ≡ true }
    requires ordered { start ≤ end }
    requires within { end ≤ length buffer.old.behind }
    ensures { HasWalked (strip buffer.old.behind) (strip buffer.old.ahead) (Merge InOutput start end ∷ []) buffer.old
        buffer.new }
{
    buffer.merge_out_clusters(start, end);
}

/// Merges the glyphs of the output from `start` up to before `end`, and moves those before `middle` after the others.
/// It takes no memory.
pub fn move_behind(start: usize, middle: usize, end: usize, buffer: &mut hb_buffer_t)
    requires open { buffer.old.is_open ≡ true }
    requires begins { start ≤ middle }
    requires ordered { middle ≤ end }
    requires within { end ≤ length buffer.old.behind }
    ensures { HasWalked (with_range_moved start (middle - start) (end - middle) (strip buffer.old.behind)) (strip buffer.old.ahead)
        (Move InOutput start (order_of_move (middle - start) (end - middle)) ∷ []) buffer.old buffer.new }
{
    merge_behind(start, end, buffer);
    let known = order_kept_behind(buffer, start, end);
    buffer.rotate_output(start, middle, end);
    buffer.keep_order(known);
}

/// What is known of the order of the clusters, however the glyphs of a range of the output are permuted.
fn order_kept_behind(buffer: &mut hb_buffer_t, start: usize, end: usize) -> KnownOrder
    requires ordered { start ≤ end }
    requires within { end ≤ length buffer.old.behind }
    ensures same { buffer.new ≡ buffer.old }
    ensures moved { (n k : ℕ) → start + (n + k) ≡ end → HasOrder result
        (clusters (with_range_moved start n k buffer.old.behind ++ buffer.old.ahead)) }
{
    let is_one = are_one_cluster(&buffer.out_info()[start..end]);
    let known = buffer.known_order();
    known.if_kept(is_one)
}

/// Appends the rest of the input to the output, which becomes the list.
///
/// # Errors
///
/// `TooLong` where that is more than the buffer may hold, or want of memory.
pub fn finish(buffer: &mut hb_buffer_t) -> Result<(), ShapeCause>
    requires open { buffer.old.is_open ≡ true }
    ensures ok { OnOk result ((fits_joined buffer.old ≡ true) × (buffer.new ≡ after_sync buffer.old)) }
    ensures err { IfErr result (λ e. e ≢ ShapeCause.OutOfMemory
        → (e ≡ ShapeCause.TooLong) × (fits_joined buffer.old ≡ false)) }
{
    if !buffer.sync()? {
        return Err(ShapeCause::TooLong);
    }
    Ok(())
}

/// Merges `count` glyphs at the cursor, and replaces them by the first of them under another number, which is output.
///
/// # Errors
///
/// `TooLong` where the output has as many glyphs as the buffer may hold, or want of memory.
pub fn replace_front(count: usize, number: u32, buffer: &mut hb_buffer_t) -> Result<(), ShapeCause>
    requires open { buffer.old.is_open ≡ true }
    requires some { 0 < count }
    requires there { count ≤ length buffer.old.ahead }
    ensures ok { OnOk result (HasWalked (strip buffer.old.behind ++ renumbered_first number (strip buffer.old.ahead))
        (drop count (strip buffer.old.ahead)) (Replace (length buffer.old.behind) count 1 ∷ []) buffer.old buffer.new) }
    ensures err { IfErr result (λ e. RefusesLength (length buffer.old.behind + 1) e buffer.old) }
{
    if !buffer.replace_glyphs(count, 1, &[number])? {
        return Err(ShapeCause::TooLong);
    }
    Ok(())
}
