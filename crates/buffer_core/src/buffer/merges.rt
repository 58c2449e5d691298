//! Merges of clusters in the input (rustybuzz: hb/buffer.rs, `merge_clusters`, `set_cluster`).
ghost use Rattle.std.specs.Prelude.{◌≡◌, ◌+◌, ◌-◌, ◌≤◌, if◌then◌else◌, true, false, length, ◌∷◌, []};
ghost use Rattle.buffer_glyphs.specs.Deleting.{recast};
ghost use Rattle.buffer_core.specs.Sides.{items_of, origins_of, origins_by};
ghost use Rattle.buffer_core.specs.Merging.{index_in_all, with_has_glyph_flags, with_merged};
ghost use Rattle.buffer_glyphs.specs.Levels.{InList};
ghost use Rattle.buffer_glyphs.specs.Events.{Merge};

use super::hb_buffer_t;
use buffer_common::constants::{HB_BUFFER_SCRATCH_FLAG_HAS_GLYPH_FLAGS, hb_buffer_scratch_flags_t};
use buffer_glyphs::deletion::set_cluster;
use buffer_glyphs::info::{hb_glyph_info_t, hb_mask_t};
use buffer_lists::over;

impl hb_buffer_t {
    /// Merges the clusters of the glyphs from `start` up to before `end`, indices of the input. At the monotone levels
    /// each cluster that occurs among them becomes the least of them, wherever it is, and a glyph whose cluster changes
    /// loses its three flags. At the levels `Characters` and `Graphemes` the glyphs outside the least cluster are flagged
    /// as unsafe to break and to concat. It takes no memory. Where clusters rise or fall it costs the range and the runs
    /// of glyphs at its ends; in no order each glyph is compared with the range.
    pub fn merge_clusters(&mut self, start: usize, end: usize)
        requires ordered { start ≤ end }
        requires within { end ≤ self.old.read + length self.old.ahead }
        requires unread { self.old.is_open ≡ true → self.old.read ≤ start }
        ensures merged { self.new ≡ with_merged (index_in_all start self.old) (index_in_all end self.old) self.old }
        ensures items { items_of self.new ≡ items_of self.old }
        ensures origins { origins_of self.new
            ≡ origins_by (Merge InList (index_in_all start self.old) (index_in_all end self.old) ∷ []) self.old }
    {
        let (out_len, from) = if self.have_output {
            (self.out_len, self.idx)
        } else {
            (0, 0)
        };
        self.order.settle(&self.info);
        let (marked, known) = over::merge_input(
            &mut self.info,
            out_len,
            from,
            start + self.gap - from,
            end + self.gap - from,
            self.cluster_level,
            self.order.known,
        );
        self.order.known = known;
        self.scratch_flags = add_has_glyph_flags(marked, self.scratch_flags);
    }

    /// Puts the glyph into the cluster; where it was in another, the three glyph flags of `mask` replace its own.
    pub fn set_cluster(info: &mut hb_glyph_info_t, cluster: u32, mask: hb_mask_t)
        ensures { info.new ≡ recast cluster mask info.old }
    {
        set_cluster(info, cluster, mask);
    }
}

pub(super) fn add_has_glyph_flags(
    any: bool,
    flags: hb_buffer_scratch_flags_t,
) -> hb_buffer_scratch_flags_t
    ensures { result ≡ with_has_glyph_flags any flags }
{
    if any {
        flags | HB_BUFFER_SCRATCH_FLAG_HAS_GLYPH_FLAGS
    } else {
        flags
    }
}
