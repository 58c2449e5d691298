//! Merges and glyph flags of ranges that begin in the output (rustybuzz: hb/buffer.rs).
//!
//! Functions repeat clauses: each requires what the one that it calls requires. `mark_output` and `flag_output` have
//! one form: the first flags the glyphs outside the least cluster of a range, the second all glyphs of it.
ghost use Rattle.std.specs.Prelude.{◌≡◌, ◌+◌, ◌-◌, ◌≤◌, ◌<◌, if◌then◌else◌, nat_lt, true, false, length, ◌∷◌, []};
ghost use Rattle.buffer_core.specs.Sides.{items_of, origins_of, origins_by};
ghost use Rattle.buffer_core.specs.Merging.{index_in_all, with_output_merged};
ghost use Rattle.buffer_core.specs.Marking.{requests_concat, concat_marked_across, end_or, after_mark_across, start_or, with_flagged, with_flagged_apart, end_in_all};
ghost use Rattle.buffer_glyphs.specs.Levels.{InOutput};
ghost use Rattle.buffer_glyphs.specs.Events.{Merge, Break, Concat};

use super::hb_buffer_t;
use super::merges::add_has_glyph_flags;
use buffer_glyphs::info::{UNSAFE_TO_BREAK, UNSAFE_TO_CONCAT, hb_mask_t};
use buffer_lists::over;

// Ranges that begin in the output.
impl hb_buffer_t {
    /// Merges the clusters of the output's glyphs from `start` up to before `end`, as `merge_clusters` does those of
    /// the input; at the levels `Characters` and `Graphemes` it changes nothing. It takes no memory.
    pub fn merge_out_clusters(&mut self, start: usize, end: usize)
        requires open { self.old.is_open ≡ true }
        requires ordered { start ≤ end }
        requires within { end ≤ length self.old.behind }
        ensures merged { self.new ≡ with_output_merged start end self.old }
        ensures items { items_of self.new ≡ items_of self.old }
        ensures origins { origins_of self.new ≡ origins_by (Merge InOutput start end ∷ []) self.old }
    {
        self.order.settle(&self.info);
        self.order.known = over::merge_output(
            &mut self.info,
            self.out_len,
            self.idx,
            start,
            end,
            self.cluster_level,
            self.order.known,
        );
    }

    /// Flags as unsafe to break and to concat the glyphs from `start` of the output, over its end, up to before `end`
    /// of the input that are outside the least cluster among them; with no output open, those of the list, as
    /// `unsafe_to_break` does. Without a bound the range begins at 0 or ends at the length of the input.
    pub fn unsafe_to_break_from_outbuffer(&mut self, start: Option<usize>, end: Option<usize>)
        requires begins { start_or start ≤ length self.old.behind }
        requires unread { self.old.read ≤ end_or end self.old }
        requires within { end_or end self.old ≤ self.old.read + length self.old.ahead }
        ensures marked { self.new ≡ after_mark_across 3 start end self.old }
        ensures items { items_of self.new ≡ items_of self.old }
        ensures origins { origins_of self.new
            ≡ origins_by (Break (start_or start) (end_in_all end self.old) ∷ []) self.old }
    {
        if !self.have_output {
            return self.unsafe_to_break(start, end);
        }
        let count = self.len();
        self.mark_output(
            start.unwrap_or(0),
            end.unwrap_or(count),
            UNSAFE_TO_BREAK | UNSAFE_TO_CONCAT,
        );
    }

    /// Flags as unsafe to concat the glyphs from `start` of the output, over its end, up to before `end` of the input,
    /// where PRODUCE_UNSAFE_TO_CONCAT is set; with no output open, those of the list.
    pub fn unsafe_to_concat_from_outbuffer(&mut self, start: Option<usize>, end: Option<usize>)
        requires begins { start_or start ≤ length self.old.behind }
        requires unread { self.old.read ≤ end_or end self.old }
        requires within { end_or end self.old ≤ self.old.read + length self.old.ahead }
        ensures marked { self.new ≡ concat_marked_across start end self.old }
        ensures items { items_of self.new ≡ items_of self.old }
        ensures origins { origins_of self.new
            ≡ origins_by (Concat (start_or start) (end_in_all end self.old) ∷ []) self.old }
    {
        if !self.have_output {
            return self.unsafe_to_concat(start, end);
        }
        if self.asks_concat() {
            let count = self.len();
            self.flag_output(start.unwrap_or(0), end.unwrap_or(count), UNSAFE_TO_CONCAT);
        }
    }

    fn mark_output(&mut self, start: usize, end: usize, flags: hb_mask_t)
        requires open { self.old.is_open ≡ true }
        requires glyph_flags { flags < 8 }
        requires begins { start ≤ length self.old.behind }
        requires unread { self.old.read ≤ end }
        requires within { end ≤ self.old.read + length self.old.ahead }
        ensures marked { self.new ≡ with_flagged_apart flags start (index_in_all end self.old) self.old }
    {
        self.order.settle(&self.info);
        let (out_len, from) = (self.out_len, self.idx);
        let count = end + self.gap - from;
        let any = over::mark_across(&mut self.info, out_len, from, start, count, flags);
        self.scratch_flags = add_has_glyph_flags(any, self.scratch_flags);
    }

    fn flag_output(&mut self, start: usize, end: usize, flags: hb_mask_t)
        requires open { self.old.is_open ≡ true }
        requires glyph_flags { flags < 8 }
        requires begins { start ≤ length self.old.behind }
        requires unread { self.old.read ≤ end }
        requires within { end ≤ self.old.read + length self.old.ahead }
        ensures marked { self.new ≡ with_flagged flags start (index_in_all end self.old) self.old }
    {
        self.order.settle(&self.info);
        let (out_len, from) = (self.out_len, self.idx);
        let count = end + self.gap - from;
        over::flag_both(&mut self.info, out_len, from, start, count, flags);
        let any = any_within(start, out_len, count);
        self.scratch_flags = add_has_glyph_flags(any, self.scratch_flags);
    }
}

/// Whether there are elements from `start` up to before `end`, or others.
fn any_within(start: usize, end: usize, others: usize) -> bool
    requires { start ≤ end }
    ensures { result ≡ nat_lt start (end + others) }
{
    start < end || others > 0
}
