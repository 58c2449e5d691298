//! Feature masks of a buffer's glyphs (rustybuzz: hb/buffer.rs, `reset_masks`, `set_masks`).
ghost use Rattle.std.specs.Prelude.{◌≡◌, map, bit_and, ◌∷◌, []};
ghost use Rattle.buffer_glyphs.specs.declared.info.TheConstants.{DEFINED};
ghost use Rattle.buffer_glyphs.specs.Items.{clusters};
ghost use Rattle.buffer_core.specs.Sides.{all_glyphs, items_of, origins_of, origins_by};
ghost use Rattle.buffer_lists.specs.Masks.{item_masked, items_set};
ghost use Rattle.buffer_core.specs.Masks.{with_masks, with_set_masks, origin_masked, origin_set};
ghost use Rattle.buffer_glyphs.specs.Events.{Reset};

use super::hb_buffer_t;
use buffer_glyphs::info::hb_mask_t;
use buffer_lists::masks::{reset_masks, set_masks};

impl hb_buffer_t {
    /// Sets each glyph's mask, its three glyph flags included.
    pub fn reset_masks(&mut self, mask: hb_mask_t)
        ensures masked { self.new ≡ with_masks mask self.old }
        ensures items { items_of self.new ≡ map (item_masked mask) (items_of self.old) }
        ensures origins { origins_of self.new ≡ map (origin_masked mask) (origins_of self.old) }
        ensures event { bit_and mask DEFINED ≡ 0 → origins_of self.new ≡ origins_by (Reset ∷ []) self.old }
    {
        reset_masks(&mut self.info, mask);
    }

    /// Sets the bits under `mask` to those of the value on each glyph whose cluster is from `cluster_start` up to
    /// before `cluster_end`, and on every glyph where these are 0 and `u32::MAX`.
    pub fn set_masks(
        &mut self,
        value: hb_mask_t,
        mask: hb_mask_t,
        cluster_start: u32,
        cluster_end: u32,
    )
        ensures set { self.new ≡ with_set_masks value mask cluster_start cluster_end self.old }
        ensures items { items_of self.new
            ≡ items_set value mask cluster_start cluster_end (clusters (all_glyphs self.old)) (items_of self.old) }
        ensures origins { origins_of self.new
            ≡ map (origin_set value mask cluster_start cluster_end) (origins_of self.old) }
        ensures above { bit_and mask DEFINED ≡ 0 → origins_of self.new ≡ origins_of self.old }
    {
        set_masks(&mut self.info, value, mask, cluster_start, cluster_end);
    }
}
