//! Merges of a range at a cluster level (rustybuzz: hb/buffer.rs, `merge_clusters`).
ghost use Rattle.std.specs.Prelude.{◌≡◌, ◌≤◌, true, Bool, length};
ghost use Rattle.buffer_glyphs.specs.Items.{clusters};
ghost use Rattle.buffer_glyphs.specs.Order.{IsInOrder, IsOrdered};
ghost use Rattle.buffer_glyphs.specs.Levels.{IsMonotone};
ghost use Rattle.buffer_glyphs.specs.Glyphs.{glyphs_merged_at, is_marked_at};

use crate::info::{UNSAFE_TO_BREAK, UNSAFE_TO_CONCAT, hb_glyph_info_t};
use crate::level::BufferClusterLevel;
use crate::marks::mark_within;
use crate::runs::merge_within;

/// Merges the clusters of the glyphs from `start` up to before `end`. At the monotone levels each cluster that occurs
/// among them becomes the least of them, wherever it is, and a glyph whose cluster changes loses its three flags. At
/// the others those outside the least cluster are flagged as unsafe to break and to concat. Answers whether a glyph was
/// flagged. Where all clusters are known to be in order it costs the range and the runs of glyphs at its
/// ends.
#[tactic(auto, using(crate::proofs::Merging::order_merged, crate::proofs::Merging::direction_merged))]
pub fn merge_range(
    glyphs: &mut [hb_glyph_info_t],
    level: BufferClusterLevel,
    start: usize,
    end: usize,
    in_order: bool,
) -> bool
    requires ordered { start ≤ end }
    requires within { end ≤ length glyphs.old }
    requires known { in_order ≡ true → IsOrdered (clusters glyphs.old) }
    ensures merged { glyphs.new ≡ glyphs_merged_at level start end glyphs.old }
    ensures marked { result ≡ is_marked_at level start end (clusters glyphs.old) }
    ensures order { IsOrdered (clusters glyphs.old) → IsOrdered (clusters glyphs.new) }
    ensures direction { (falls : Bool) → IsInOrder falls (clusters glyphs.old) → IsInOrder falls (clusters glyphs.new) }
{
    merge_at(glyphs, level, start, end, in_order)
}

/// Merges such a range; the clusters are known to be in order only where the level merges.
pub fn merge_at(
    glyphs: &mut [hb_glyph_info_t],
    level: BufferClusterLevel,
    start: usize,
    end: usize,
    in_order: bool,
) -> bool
    requires ordered { start ≤ end }
    requires within { end ≤ length glyphs.old }
    requires known { in_order ≡ true → IsMonotone level → IsOrdered (clusters glyphs.old) }
    ensures merged { glyphs.new ≡ glyphs_merged_at level start end glyphs.old }
    ensures marked { result ≡ is_marked_at level start end (clusters glyphs.old) }
{
    match level {
        BufferClusterLevel::Characters | BufferClusterLevel::Graphemes => {
            mark_within(
                glyphs,
                start,
                end,
                UNSAFE_TO_BREAK | UNSAFE_TO_CONCAT,
                false,
            )
        }
        BufferClusterLevel::MonotoneGraphemes | BufferClusterLevel::MonotoneCharacters => {
            merge_within(glyphs, start, end, in_order);
            false
        }
    }
}
