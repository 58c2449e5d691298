//! A range of a buffer sorted (rustybuzz: hb/buffer.rs, `sort`).
ghost use Rattle.std.specs.Prelude.{◌≡◌, ◌≤◌, ◌++◌, ◌∷◌, [], ℕ, false, map, take, drop, length, slice_range, OnOk, OnErr};
ghost use Rattle.buffer_glyphs.specs.declared.info.hb_glyph_info_t.{hb_glyph_info_t as Glyph};
ghost use Rattle.buffer_glyphs.specs.Items.{Item, item_of};
ghost use Rattle.buffer_glyphs.specs.Events.{Sort};
ghost use Rattle.buffer_rows.specs.KeyOrder.{key_order};
ghost use Rattle.buffer_lists.specs.Events.{order_of};
ghost use Rattle.buffer_lists.specs.Sorting.{Gives};
ghost use Rattle.buffer_core.specs.Sides.{all_glyphs, items_of, origins_by, origins_of};
ghost use Rattle.buffer_core.specs.Sorting.{with_range_sorted};

use super::hb_buffer_t;
use super::merges::add_has_glyph_flags;
use buffer_glyphs::info::hb_glyph_info_t;
use buffer_lists::order::ClusterOrder;
use buffer_lists::sorting::sort;
use std::alloc::{AllocError, Global};

impl hb_buffer_t {
    /// Puts the glyphs from `start` up to before `end` in stable order by the keys that they have, and merges each smallest
    /// span that the order permutes, as `merge_clusters` does. Positions stay where they are. A range whose keys stand in order
    /// takes no memory; where clusters are kept apart only the range is walked.
    pub fn sort<F: Fn(&hb_glyph_info_t) -> u32>(
        &mut self,
        alloc: Global,
        start: usize,
        end: usize,
        key: F,
    ) -> Result<(), AllocError>
        requires callable { F.IsAlwaysCallable key }
        requires closed { self.old.is_open ≡ false }
        requires ordered { start ≤ end }
        requires within { end ≤ length (all_glyphs self.old) }
        ensures sorted { (k : Glyph → ℕ) → Gives F.Fn key k →
            OnOk result (self.new ≡ with_range_sorted start end k self.old) }
        ensures items { (k : Item → ℕ) → Gives F.Fn key (λ g. k (item_of g)) →
            OnOk result (items_of self.new
            ≡ take start (items_of self.old) ++ key_order k (slice_range (items_of self.old) start end)
            ++ drop end (items_of self.old)) }
        ensures origins { (k : Item → ℕ) → Gives F.Fn key (λ g. k (item_of g)) →
            OnOk result (origins_of self.new
            ≡ origins_by (Sort start (order_of (map k (slice_range (items_of self.old) start end))) ∷ []) self.old) }
        ensures closed { self.new.is_open ≡ false }
        ensures count { length (all_glyphs self.new) ≡ length (all_glyphs self.old) }
        ensures err { OnErr result (self.new ≡ self.old) }
    {
        let known = self.order_before_merges();
        let level = self.cluster_level;
        let in_order = known.is_known();
        let sorted = sort(alloc, &mut self.info, level, in_order, start, end, key)?;
        let order = known.if_kept(sorted.in_order);
        self.order = ClusterOrder::of(order);
        self.scratch_flags = add_has_glyph_flags(sorted.marked, self.scratch_flags);
        Ok(())
    }
}
