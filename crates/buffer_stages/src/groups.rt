//! Groups of glyphs whose order is reversed.
ghost use Rattle.std.specs.Prelude.{◌≡◌, ◌≤◌, ◌++◌, [], Bool, drop, length, reverse, slice_range, take};
ghost use Rattle.buffer_glyphs.specs.Items.{Item, item_of};
ghost use Rattle.buffer_core.specs.Sides.{all_glyphs, items_of};
ghost use Rattle.buffer_stages.specs.Ready.{IsReady};
ghost use Rattle.buffer_stages.specs.Fronts.{one_seen};
ghost use Rattle.buffer_stages.specs.Ordering.{groups_reversed};
ghost use Rattle.buffer_stages.specs.SyllableBuffers.{IsRewritten};
ghost use Rattle.buffer_stages.specs.Turned.{leading_turned};

use crate::moves::order_kept;
use buffer_core::buffer::hb_buffer_t;
use buffer_glyphs::info::hb_glyph_info_t;

/// Which glyphs begin a group.
pub trait GroupRule {
    ghost begins: { Self → Item → Bool };

    fn begins_group(&self, glyph: &hb_glyph_info_t) -> bool
        ensures { result ≡ begins self.now (item_of glyph.now) };
}

/// Reverses the order of the groups of the glyphs from `start` up to before `end`, and merges these. It takes linear time and
/// no memory.
pub fn reverse_groups<R: GroupRule>(rule: &R, buffer: &mut hb_buffer_t, start: usize, end: usize)
    requires ready { IsReady buffer.old }
    requires ordered { start ≤ end }
    requires within { end ≤ length (all_glyphs buffer.old) }
    ensures { IsRewritten (groups_reversed (R.begins rule.now) (slice_range (items_of buffer.old) start end)) start end
        buffer.old buffer.new }
{
    buffer.merge_clusters(start, end);
    let known = order_kept(buffer, start, end);
    turn_within(rule, buffer.info_slice_mut(), start, end);
    buffer.keep_order(known);
}

fn turn_within<R: GroupRule>(rule: &R, glyphs: &mut [hb_glyph_info_t], start: usize, end: usize)
    requires ordered { start ≤ end }
    requires within { end ≤ length glyphs.old }
    ensures { glyphs.new ≡ take start glyphs.old
        ++ leading_turned (one_seen (R.begins rule.now)) (slice_range glyphs.old start end) [] []
        ++ drop end glyphs.old }
{
    turn_groups(rule, &mut glyphs[start..end]);
}

/// Puts the last group in front: all glyphs are turned round, and then each group is. It takes linear time.
#[tactic(auto, using(crate::proofs::TurnedBack::none_turned_back, crate::proofs::TurnedBack::kept_back, crate::proofs::TurnedBack::group_back, crate::proofs::TurnedBack::all_back))]
fn turn_groups<R: GroupRule>(rule: &R, glyphs: &mut [hb_glyph_info_t])
    ensures { glyphs.new ≡ leading_turned (one_seen (R.begins rule.now)) glyphs.old [] [] }
{
    glyphs.reverse();
    let count = glyphs.len();
    let mut begin = 0;
    for i in 0..count {
        if rule.begins_group(&glyphs[i]) {
            turn_back(glyphs, begin, i + 1);
            begin = i + 1;
        }
    }
    turn_back(glyphs, begin, count);
}

/// Turns the glyphs from `start` up to before `end` round.
fn turn_back(glyphs: &mut [hb_glyph_info_t], start: usize, end: usize)
    requires ordered { start ≤ end }
    requires within { end ≤ length glyphs.old }
    ensures { glyphs.new ≡ take start glyphs.old ++ reverse (slice_range glyphs.old start end) ++ drop end glyphs.old }
{
    glyphs[start..end].reverse();
}
