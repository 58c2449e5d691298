//! Groups of neighbours in a buffer, and deletion in place (rustybuzz: hb/buffer.rs, `group_end`, `reverse_groups`,
//! `delete_glyphs_inplace`).
ghost use Rattle.std.specs.Prelude.{◌≡◌, ◌+◌, ◌<◌, ◌≤◌, false, Bool, drop, length, min};
ghost use Rattle.buffer_glyphs.specs.declared.info.hb_glyph_info_t.{hb_glyph_info_t as Glyph};
ghost use Rattle.buffer_lists.specs.Groups.{Decides, group_length};
ghost use Rattle.buffer_lists.specs.Runs.{grapheme_length, run_length};
ghost use Rattle.buffer_core.specs.Sides.{all_glyphs, items_of, origins_by, origins_of};
ghost use Rattle.buffer_glyphs.specs.Items.{Item, item_of};
ghost use Rattle.buffer_lists.specs.Events.{deletions, groups_reversed};
ghost use Rattle.buffer_lists.specs.Turning.{groups_reversed_list};
ghost use Rattle.buffer_lists.specs.Facts.{items_kept, positions_kept, positions_turned};
ghost use Rattle.buffer_lists.specs.DeletionWalk.{AnswersAs};
ghost use Rattle.buffer_core.specs.Grouping.{with_groups_reversed, with_picked_deleted};

use super::hb_buffer_t;
use super::merges::add_has_glyph_flags;
use buffer_glyphs::info::hb_glyph_info_t;
use buffer_lists::deletion_within::delete_within;
use buffer_lists::order::{ClusterOrder, KnownOrder};
use buffer_lists::{groups, reversal};

impl hb_buffer_t {
    /// The end of the run of glyphs of one syllable that begins at `start`; past the end of the glyphs, `start`.
    pub fn next_syllable(&self, start: usize) -> usize
        requires { self.now.is_open ≡ false }
        ensures { result ≡ start + run_length (λ g. g.syllable) (drop start (all_glyphs self.now)) }
    {
        groups::next_syllable(&self.info, start)
    }

    /// The end of the run of glyphs of one cluster that begins at `start`; past the end of the glyphs, `start`.
    pub fn next_cluster(&self, start: usize) -> usize
        requires { self.now.is_open ≡ false }
        ensures { result ≡ start + run_length (λ g. g.cluster) (drop start (all_glyphs self.now)) }
    {
        groups::next_cluster(&self.info, start)
    }

    /// The end of the grapheme that begins at `start`: the glyphs after the first that continue it belong to it; past
    /// the end of the glyphs, `start`.
    pub fn next_grapheme(&self, start: usize) -> usize
        requires { self.now.is_open ≡ false }
        ensures { result ≡ start + grapheme_length (drop start (all_glyphs self.now)) }
    {
        groups::next_grapheme(&self.info, start)
    }

    /// The end of the group that begins at `start`: the first index after it at which the test of two neighbours fails,
    /// or the length.
    pub fn group_end<F: Fn(&hb_glyph_info_t, &hb_glyph_info_t) -> bool>(
        &self,
        start: usize,
        group: F,
    ) -> usize
        requires callable { F.IsAlwaysCallable group }
        requires closed { self.now.is_open ≡ false }
        requires within { start < length (all_glyphs self.now) }
        ensures { (joins : Glyph → Glyph → Bool) → Decides F.Fn group joins →
            result ≡ start + group_length joins (drop start (all_glyphs self.now)) }
    {
        groups::group_end(&self.info, start, group)
    }

    /// Reverses the order of the groups, and keeps the order within each; positions move with their glyphs. Where
    /// `merge` is set, the glyphs of each group are merged before, as by `merge_clusters`. It takes no memory.
    pub fn reverse_groups<F: Fn(&hb_glyph_info_t, &hb_glyph_info_t) -> bool>(
        &mut self,
        group: F,
        merge: bool,
    )
        requires callable { F.IsAlwaysCallable group }
        requires closed { self.old.is_open ≡ false }
        ensures turned { (joins : Glyph → Glyph → Bool) → Decides F.Fn group joins →
            self.new ≡ with_groups_reversed merge joins self.old }
        ensures plain { (joins : Glyph → Glyph → Bool) → Decides F.Fn group joins → merge ≡ false →
            all_glyphs self.new ≡ groups_reversed_list joins (all_glyphs self.old) }
        ensures items { (q : Item → Item → Bool) → Decides F.Fn group (λ g h. q (item_of g) (item_of h)) →
            items_of self.new ≡ groups_reversed_list q (items_of self.old) }
        ensures positions { (q : Item → Item → Bool) → Decides F.Fn group (λ g h. q (item_of g) (item_of h)) →
            self.new.positions ≡ positions_turned q (items_of self.old) self.old.positions }
        ensures origins { (q : Item → Item → Bool) → Decides F.Fn group (λ g h. q (item_of g) (item_of h)) →
            origins_of self.new ≡ origins_by (groups_reversed merge q (items_of self.old)) self.old }
        ensures closed { self.new.is_open ≡ false }
        ensures count { length (all_glyphs self.new) ≡ length (all_glyphs self.old) }
    {
        let known = self.walked_order();
        self.order = ClusterOrder::of(KnownOrder::Unknown);
        let marked = reversal::reverse_groups(
            &mut self.info,
            &mut self.pos,
            self.cluster_level,
            known.is_known(),
            merge,
            group,
        );
        self.is_placed = true;
        self.scratch_flags = add_has_glyph_flags(marked, self.scratch_flags);
    }

    /// Deletes the glyphs where `filter` holds, and their positions, from the left, with the clusters that
    /// `delete_glyph` leaves after each. The cursor stays at its index, or is after the last glyph where fewer are
    /// left. It takes no memory.
    pub fn delete_glyphs_inplace<F: Fn(&hb_glyph_info_t) -> bool>(&mut self, filter: F)
        requires callable { F.IsAlwaysCallable filter }
        requires closed { self.old.is_open ≡ false }
        ensures deleted { (goes : Glyph → Bool) → AnswersAs F.Fn filter goes →
            self.new ≡ with_picked_deleted goes self.old }
        ensures items { (q : Item → Bool) → AnswersAs F.Fn filter (λ g. q (item_of g)) →
            items_of self.new ≡ items_kept q (items_of self.old) }
        ensures positions { (q : Item → Bool) → AnswersAs F.Fn filter (λ g. q (item_of g)) →
            self.new.positions ≡ positions_kept q (items_of self.old) self.old.positions }
        ensures origins { (q : Item → Bool) → AnswersAs F.Fn filter (λ g. q (item_of g)) →
            origins_of self.new ≡ origins_by (deletions q (items_of self.old)) self.old }
        ensures closed { self.new.is_open ≡ false }
        ensures cursor { self.new.read ≡ min self.old.read (length (all_glyphs self.new)) }
        ensures few { length (all_glyphs self.new) ≤ length (all_glyphs self.old) }
    {
        let breaks = self.asks_breaks();
        let known = self.walked_order();
        self.order = ClusterOrder::of(KnownOrder::Unknown);
        let (kept, marked) = delete_within(
            &mut self.info,
            &mut self.pos,
            self.cluster_level,
            known.is_known(),
            breaks,
            filter,
        );
        self.info.truncate(kept);
        self.pos.truncate(kept);
        self.is_placed = true;
        self.idx = self.idx.min(self.info.len());
        self.scratch_flags = add_has_glyph_flags(marked, self.scratch_flags);
    }
}
