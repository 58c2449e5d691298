//! Glyph flags on ranges of the input (rustybuzz: hb/buffer.rs, `unsafe_to_break`, `unsafe_to_concat`,
//! `safe_to_insert_tatweel`).
ghost use Rattle.std.specs.Prelude.{◌≡◌, ◌+◌, ◌-◌, ◌≤◌, ◌<◌, if◌then◌else◌, true, length, ◌∷◌, []};
ghost use Rattle.buffer_core.specs.Sides.{items_of, origins_of, origins_by, requests_breaks};
ghost use Rattle.buffer_core.specs.Merging.{index_in_all};
ghost use Rattle.buffer_core.specs.Marking.{requests_concat, concat_marked, end_or, range_flagged_apart, start_or, strictly_marked, tatweel_marked, with_flagged, with_flagged_apart, start_in_all, end_in_all};
ghost use Rattle.buffer_glyphs.specs.Events.{Break, Concat, StrictBreak, Tatweel};

use super::hb_buffer_t;
use super::merges::add_has_glyph_flags;
use bitflags::Flags;
use buffer_common::constants::BufferFlags;
use buffer_glyphs::info::{SAFE_TO_INSERT_TATWEEL, UNSAFE_TO_BREAK, UNSAFE_TO_CONCAT, hb_mask_t};
use buffer_glyphs::marks::{flag_within, mark_within};

impl hb_buffer_t {
    /// Flags as unsafe to break and to concat the glyphs of a range of the input that are outside its least cluster.
    /// Without a bound the range begins at 0 or ends at the length of the input.
    pub fn unsafe_to_break(&mut self, start: Option<usize>, end: Option<usize>)
        requires ordered { start_or start ≤ end_or end self.old }
        requires within { end_or end self.old ≤ self.old.read + length self.old.ahead }
        requires unread { self.old.is_open ≡ true → self.old.read ≤ start_or start }
        ensures marked { self.new ≡ range_flagged_apart 3 start end self.old }
        ensures items { items_of self.new ≡ items_of self.old }
        ensures origins { origins_of self.new
            ≡ origins_by (Break (start_in_all start self.old) (end_in_all end self.old) ∷ []) self.old }
    {
        let count = self.len();
        self.mark_range(
            start.unwrap_or(0),
            end.unwrap_or(count),
            UNSAFE_TO_BREAK | UNSAFE_TO_CONCAT,
        );
    }

    /// Flags the glyphs of a range of the input as unsafe to concat, where PRODUCE_UNSAFE_TO_CONCAT is set.
    pub fn unsafe_to_concat(&mut self, start: Option<usize>, end: Option<usize>)
        requires ordered { start_or start ≤ end_or end self.old }
        requires within { end_or end self.old ≤ self.old.read + length self.old.ahead }
        requires unread { self.old.is_open ≡ true → self.old.read ≤ start_or start }
        ensures marked { self.new ≡ concat_marked start end self.old }
        ensures items { items_of self.new ≡ items_of self.old }
        ensures origins { origins_of self.new
            ≡ origins_by (Concat (start_in_all start self.old) (end_in_all end self.old) ∷ []) self.old }
    {
        if self.asks_concat() {
            let count = self.len();
            self.flag_range(start.unwrap_or(0), end.unwrap_or(count), UNSAFE_TO_CONCAT);
        }
    }

    /// Flags the glyphs of a range of the input that are outside its least cluster: as safe to insert a tatweel before,
    /// where PRODUCE_SAFE_TO_INSERT_TATWEEL is set; else as unsafe to break.
    pub fn safe_to_insert_tatweel(&mut self, start: Option<usize>, end: Option<usize>)
        requires ordered { start_or start ≤ end_or end self.old }
        requires within { end_or end self.old ≤ self.old.read + length self.old.ahead }
        requires unread { self.old.is_open ≡ true → self.old.read ≤ start_or start }
        ensures marked { self.new ≡ tatweel_marked start end self.old }
        ensures items { items_of self.new ≡ items_of self.old }
        ensures origins { origins_of self.new
            ≡ origins_by (Tatweel (start_in_all start self.old) (end_in_all end self.old) ∷ []) self.old }
    {
        if self
            .flags
            .contains(BufferFlags::PRODUCE_SAFE_TO_INSERT_TATWEEL)
        {
            let count = self.len();
            self.mark_range(
                start.unwrap_or(0),
                end.unwrap_or(count),
                SAFE_TO_INSERT_TATWEEL,
            );
        } else {
            self.unsafe_to_break(start, end);
        }
    }

    /// Flags as unsafe to break and to concat the glyphs of a range of the input that are outside its least cluster, as
    /// `unsafe_to_break` does, where PRODUCE_SAFE_BREAKS is set (of this project): of these HarfBuzz makes no flags.
    #[tactic(auto, using(crate::proofs::MarkedOrigins::strict_items, crate::proofs::MarkedOrigins::strict_origins))]
    pub fn unsafe_to_break_strictly(&mut self, start: Option<usize>, end: Option<usize>)
        requires ordered { start_or start ≤ end_or end self.old }
        requires within { end_or end self.old ≤ self.old.read + length self.old.ahead }
        requires unread { self.old.is_open ≡ true → self.old.read ≤ start_or start }
        ensures marked { self.new ≡ strictly_marked start end self.old }
        ensures items { items_of self.new ≡ items_of self.old }
        ensures origins { origins_of self.new
            ≡ origins_by (StrictBreak (start_in_all start self.old) (end_in_all end self.old) ∷ []) self.old }
    {
        if self.asks_breaks() {
            self.unsafe_to_break(start, end);
        }
    }

    /// Whether PRODUCE_SAFE_BREAKS is set: without it `unsafe_to_break_strictly` changes nothing.
    pub fn asks_breaks(&self) -> bool
        ensures { result ≡ requests_breaks self.now }
    {
        self.flags.contains(BufferFlags::PRODUCE_SAFE_BREAKS)
    }

    pub(super) fn asks_concat(&self) -> bool
        ensures { result ≡ requests_concat self.now }
    {
        self.flags.contains(BufferFlags::PRODUCE_UNSAFE_TO_CONCAT)
    }

    fn mark_range(&mut self, start: usize, end: usize, flags: hb_mask_t)
        requires glyph_flags { flags < 8 }
        requires ordered { start ≤ end }
        requires within { end ≤ self.old.read + length self.old.ahead }
        requires unread { self.old.is_open ≡ true → self.old.read ≤ start }
        ensures marked { self.new
            ≡ with_flagged_apart flags (index_in_all start self.old) (index_in_all end self.old) self.old }
    {
        self.order.settle(&self.info);
        let in_order = self.order.known.is_known();
        let (first, past) = (start + self.gap, end + self.gap);
        let any = mark_within(&mut self.info, first, past, flags, in_order);
        self.scratch_flags = add_has_glyph_flags(any, self.scratch_flags);
    }

    fn flag_range(&mut self, start: usize, end: usize, flags: hb_mask_t)
        requires glyph_flags { flags < 8 }
        requires ordered { start ≤ end }
        requires within { end ≤ self.old.read + length self.old.ahead }
        requires unread { self.old.is_open ≡ true → self.old.read ≤ start }
        ensures marked { self.new
            ≡ with_flagged flags (index_in_all start self.old) (index_in_all end self.old) self.old }
    {
        flag_within(&mut self.info, start + self.gap, end + self.gap, flags);
        self.scratch_flags = add_has_glyph_flags(start < end, self.scratch_flags);
    }
}
