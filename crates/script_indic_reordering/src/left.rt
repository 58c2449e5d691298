//! Left matras, which move after a halant that precedes the base (rustybuzz: hb/ot_shaper_indic.rs).
ghost use Rattle.std.specs.Prelude.{◌≡◌, ◌≤◌, ◌+◌, ◌-◌, ◌++◌, drop, length, reverse, slice_range, take};
ghost use Rattle.buffer_glyphs.specs.Items.{item_of};
ghost use Rattle.buffer_core.specs.Sides.{all_glyphs, items_of};
ghost use Rattle.buffer_stages.specs.Ready.{IsReady};
ghost use Rattle.buffer_stages.specs.Moves.{with_range_moved};
ghost use Rattle.buffer_stages.specs.SyllableBuffers.{IsRewritten};
ghost use Rattle.script_indic_reordering.specs.Left.{glyphs_put};
ghost use Rattle.script_indic_reordering.specs.Final.{last_halant, lefts_last, lefts_merged, lefts_moved, lefts_moved_by};

use crate::formed::{after_halant, last_halant};
use crate::glyphs::is_left;
use crate::sought::Sought;
use buffer_core::buffer::hb_buffer_t;
use buffer_glyphs::info::hb_glyph_info_t;
use buffer_stages::fronts::{FrontRule, gather};
use buffer_stages::moves::order_kept;

/// Moves left matras after the last halant that precedes the base, and merges all from the first one up to the base.
pub(crate) fn move_lefts(buffer: &mut hb_buffer_t, start: usize, end: usize, base: usize)
    requires ready { IsReady buffer.old }
    requires ordered { start + base ≤ end }
    requires within { end ≤ length (all_glyphs buffer.old) }
    ensures { IsRewritten (lefts_moved base (slice_range (items_of buffer.old) start end)) start end buffer.old
        buffer.new }
{
    move_after_halant(buffer, start, end, base);
    merge_to_base(buffer, start, end, base);
}

fn move_after_halant(buffer: &mut hb_buffer_t, start: usize, end: usize, base: usize)
    requires ready { IsReady buffer.old }
    requires ordered { start + base ≤ end }
    requires within { end ≤ length (all_glyphs buffer.old) }
    ensures { IsRewritten (lefts_moved_by base (slice_range (items_of buffer.old) start end)
        (last_halant base (slice_range (items_of buffer.old) start end))) start end buffer.old buffer.new }
{
    let glyphs = &buffer.info_slice()[start..end];
    let Some(halant) = last_halant(glyphs, base) else {
        return;
    };
    let Some(first) = Sought::Left.first_from(&glyphs[..halant], 0) else {
        return;
    };
    let to = after_halant(glyphs, base, halant);
    put_lefts_last(buffer, start + first, start + to, halant - first);
}

fn merge_to_base(buffer: &mut hb_buffer_t, start: usize, end: usize, base: usize)
    requires ready { IsReady buffer.old }
    requires ordered { start + base ≤ end }
    requires within { end ≤ length (all_glyphs buffer.old) }
    ensures { IsRewritten (lefts_merged base (slice_range (items_of buffer.old) start end)) start end buffer.old
        buffer.new }
{
    let glyphs = &buffer.info_slice()[start..end];
    if let Some(first) = Sought::Left.first_from(&glyphs[..base], 0) {
        let last = (end - start).min(base + 1);
        buffer.merge_clusters(start + first, start + last);
    }
}

/// Moves the left ones of the first `count` glyphs from `start` up to before `end` after all others, and merges all. It
/// takes no memory, and n log n time for n glyphs.
fn put_lefts_last(buffer: &mut hb_buffer_t, start: usize, end: usize, count: usize)
    requires ready { IsReady buffer.old }
    requires ordered { start + count ≤ end }
    requires within { end ≤ length (all_glyphs buffer.old) }
    ensures { IsRewritten (lefts_last count (slice_range (items_of buffer.old) start end)) start end buffer.old
        buffer.new }
{
    buffer.merge_clusters(start, end);
    let known = order_kept(buffer, start, end);
    put_within(buffer.info_slice_mut(), start, end, count);
    buffer.keep_order(known);
}

fn put_within(glyphs: &mut [hb_glyph_info_t], start: usize, end: usize, count: usize)
    requires ordered { start + count ≤ end }
    requires within { end ≤ length glyphs.old }
    ensures { glyphs.new ≡ take start glyphs.old ++ glyphs_put count (slice_range glyphs.old start end) ++ drop end glyphs.old }
{
    put_last(&mut glyphs[start..end], count);
}

/// Moves the left ones of the first `count` glyphs after all others.
#[tactic(auto, using(crate::proofs::Lemmas::LeftPut::few_others, crate::proofs::Lemmas::LeftPut::put_is))]
fn put_last(glyphs: &mut [hb_glyph_info_t], count: usize)
    requires { count ≤ length glyphs.old }
    ensures { glyphs.new ≡ glyphs_put count glyphs.old }
{
    let end = glyphs.len();
    let others = gather(&Others, glyphs, 0, count);
    turn(glyphs, 0, others);
    rotate(glyphs, others, count, end);
}

/// Reverses the glyphs from `start` up to before `end`.
fn turn(glyphs: &mut [hb_glyph_info_t], start: usize, end: usize)
    requires ordered { start ≤ end }
    requires within { end ≤ length glyphs.old }
    ensures { glyphs.new ≡ take start glyphs.old ++ reverse (slice_range glyphs.old start end) ++ drop end glyphs.old }
{
    glyphs[start..end].reverse();
}

/// Moves the glyphs from `start` up to before `middle` after those up to before `end`.
fn rotate(glyphs: &mut [hb_glyph_info_t], start: usize, middle: usize, end: usize)
    requires begins { start ≤ middle }
    requires ordered { middle ≤ end }
    requires within { end ≤ length glyphs.old }
    ensures { glyphs.new ≡ with_range_moved start (middle - start) (end - middle) glyphs.old }
{
    glyphs[start..end].rotate_left(middle - start);
}

/// The rule that moves what is no left matra to the front.
struct Others;

impl FrontRule for Others {
    ghost use Rattle.script_indic_reordering.specs.Left.{is_other, together, never_together};

    ghost pairs = { λ _. together };

    ghost ones = { λ _. is_other };

    fn comes_with(&self, _glyph: &hb_glyph_info_t, _next: &hb_glyph_info_t) -> bool {
        false
    }

    fn comes(&self, glyph: &hb_glyph_info_t) -> bool {
        !is_left(glyph)
    }

    ghost apart = { λ _. never_together };
}
