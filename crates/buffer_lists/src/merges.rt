//! Merges over both lists (rustybuzz: hb/buffer.rs, `merge_clusters`, `merge_out_clusters`).
ghost use Rattle.std.specs.Prelude.{◌≡◌, ◌≤◌, ◌++◌, true, length};
ghost use Rattle.buffer_glyphs.specs.Items.{clusters};
ghost use Rattle.buffer_glyphs.specs.Levels.{InOutput, manner};
ghost use Rattle.buffer_glyphs.specs.Parts.{range_of};
ghost use Rattle.buffer_glyphs.specs.Order.{IsOrdered};
ghost use Rattle.buffer_glyphs.specs.Glyphs.{beside_merged, beside_merged_as, glyphs_merged, glyphs_merged_as, glyphs_merged_at, is_marked_at};
ghost use Rattle.buffer_lists.specs.Known.{HasOrder};

use crate::order::KnownOrder;
use buffer_glyphs::info::hb_glyph_info_t;
use buffer_glyphs::level::BufferClusterLevel;
use buffer_glyphs::ranges::merge_range;
use buffer_glyphs::runs::{merge_after, merge_beside, merge_within};

/// Merges a range of the input on both lists; answers whether a glyph was flagged, and what is known of the order after
/// it. Where the order is not known, a walk finds it before; where there is none, each glyph is compared with the range.
#[tactic(auto, using(buffer_glyphs::specs::Lemmas::Glyphs::range_clusters, crate::proofs::Ranges::range_known, buffer_glyphs::proofs::Joined::order_second, crate::proofs::Ordered::known_ordered, crate::proofs::Ordered::order_merged))]
pub fn merge_input(
    output: &mut [hb_glyph_info_t],
    input: &mut [hb_glyph_info_t],
    start: usize,
    end: usize,
    level: BufferClusterLevel,
    known: KnownOrder,
) -> (bool, KnownOrder)
    requires ordered { start ≤ end }
    requires within { end ≤ length input.old }
    requires known { HasOrder known (clusters output.old ++ clusters input.old) }
    ensures input { input.new ≡ glyphs_merged_at level start end input.old }
    ensures output { output.new ≡ beside_merged level (range_of start end (clusters input.old)) output.old }
    ensures any { result.0 ≡ is_marked_at level start end (clusters input.old) }
    ensures order { HasOrder result.1 (clusters output.new ++ clusters input.new) }
{
    let known = known.merged(level, output, input);
    let in_order = known.is_known();
    merge_beside_range(output, &input[start..end], level, in_order);
    let marked = merge_range(input, level, start, end, in_order);
    (marked, known.merged(level, output, input))
}

/// Renumbers the glyphs before a merged range.
fn merge_beside_range(
    glyphs: &mut [hb_glyph_info_t],
    range: &[hb_glyph_info_t],
    level: BufferClusterLevel,
    in_order: bool,
)
    requires { in_order ≡ true → IsOrdered (clusters glyphs.old ++ clusters range.now) }
    ensures { glyphs.new ≡ beside_merged level (clusters range.now) glyphs.old }
{
    match level {
        BufferClusterLevel::Characters | BufferClusterLevel::Graphemes => {}
        BufferClusterLevel::MonotoneGraphemes | BufferClusterLevel::MonotoneCharacters => {
            merge_beside(glyphs, range, in_order);
        }
    }
}

/// Merges a range of the output on both lists, at the monotone levels alone; answers what is known of the order after
/// it. Where clusters are in no order each glyph is compared with the range.
#[tactic(auto, using(crate::proofs::Ordered::known_ordered))]
pub fn merge_output(
    output: &mut [hb_glyph_info_t],
    input: &mut [hb_glyph_info_t],
    start: usize,
    end: usize,
    level: BufferClusterLevel,
    known: KnownOrder,
) -> KnownOrder
    requires ordered { start ≤ end }
    requires within { end ≤ length output.old }
    requires known { HasOrder known (clusters output.old ++ clusters input.old) }
    ensures output { output.new ≡ glyphs_merged_as (manner InOutput level) start end output.old }
    ensures input { input.new
        ≡ beside_merged_as (manner InOutput level) (range_of start end (clusters output.old)) input.old }
    ensures order { HasOrder result (clusters output.new ++ clusters input.new) }
{
    match level {
        BufferClusterLevel::Characters | BufferClusterLevel::Graphemes => known,
        BufferClusterLevel::MonotoneGraphemes | BufferClusterLevel::MonotoneCharacters => {
            unite_output(output, input, start, end, known.is_known());
            known.walked(output, input)
        }
    }
}

/// Renumbers the clusters of a range of the output to the least of them on both lists.
#[tactic(auto, using(buffer_glyphs::specs::Lemmas::Glyphs::range_clusters, crate::proofs::Ranges::range_ordered, crate::proofs::Ranges::front_ordered))]
fn unite_output(
    output: &mut [hb_glyph_info_t],
    input: &mut [hb_glyph_info_t],
    start: usize,
    end: usize,
    in_order: bool,
)
    requires ordered { start ≤ end }
    requires within { end ≤ length output.old }
    requires known { in_order ≡ true → IsOrdered (clusters output.old ++ clusters input.old) }
    ensures output { output.new ≡ glyphs_merged (range_of start end (clusters output.old)) output.old }
    ensures input { input.new ≡ glyphs_merged (range_of start end (clusters output.old)) input.old }
{
    merge_after(input, &output[start..end], in_order);
    merge_within(output, start, end, in_order);
}
