//! Moves of glyphs within a text.
ghost use Rattle.std.specs.Prelude.{◌≡◌, ◌≤◌, ◌-◌, ◌==◌, List, false, true, length, slice_range};
ghost use Rattle.std.specs.List.{list_all};
ghost use Rattle.buffer_glyphs.specs.declared.info.hb_glyph_info_t.{hb_glyph_info_t as Glyph};
ghost use Rattle.buffer_glyphs.specs.Items.{clusters};
ghost use Rattle.buffer_lists.specs.Known.{HasOrder};
ghost use Rattle.buffer_core.specs.Readings.{always};
ghost use Rattle.buffer_core.specs.Sides.{all_glyphs};
ghost use Rattle.buffer_stages.specs.Ready.{IsReady};
ghost use Rattle.buffer_stages.specs.Moves.{are_one_cluster, with_range_moved, with_move};
ghost use Rattle.buffer_stages.specs.Stages.{IsFollowed};

use buffer_core::buffer::hb_buffer_t;
use buffer_glyphs::info::hb_glyph_info_t;
use buffer_lists::order::KnownOrder;

/// Merges the glyphs from `start` up to before `end`, and moves those before `middle` after the others. It takes no
/// memory.
pub fn move_back(buffer: &mut hb_buffer_t, start: usize, middle: usize, end: usize)
    requires ready { IsReady buffer.old }
    requires begins { start ≤ middle }
    requires ordered { middle ≤ end }
    requires within { end ≤ length (all_glyphs buffer.old) }
    ensures { IsFollowed (always (with_move start (middle - start) (end - middle))) buffer.old buffer.new }
{
    buffer.merge_clusters(start, end);
    let known = order_kept(buffer, start, end);
    rotate(buffer.info_slice_mut(), start, middle, end);
    buffer.keep_order(known);
}

/// What is known of the order of the clusters, to be kept once the glyphs of a range are permuted: where these are of
/// one cluster, what is known before.
pub fn order_kept(buffer: &mut hb_buffer_t, start: usize, end: usize) -> KnownOrder
    requires closed { buffer.old.is_open ≡ false }
    requires ordered { start ≤ end }
    requires within { end ≤ length (all_glyphs buffer.old) }
    ensures same { buffer.new ≡ buffer.old }
    ensures kept { (gs : List Glyph) →
        (are_one_cluster (slice_range (all_glyphs buffer.old) start end) ≡ true → clusters gs
        ≡ clusters (all_glyphs buffer.old)) →
        HasOrder result (clusters gs) }
{
    let is_one = are_one_cluster(&buffer.info_slice()[start..end]);
    let known = buffer.known_order();
    known.if_kept(is_one)
}

/// Whether glyphs are of one cluster.
pub(crate) fn are_one_cluster(glyphs: &[hb_glyph_info_t]) -> bool
    ensures { result ≡ are_one_cluster glyphs.now }
{
    let Some((first, rest)) = glyphs.split_first() else {
        return true;
    };
    are_of(first.cluster, rest)
}

fn are_of(cluster: u32, glyphs: &[hb_glyph_info_t]) -> bool
    ensures { result ≡ list_all (λ g. g.cluster == cluster) glyphs.now }
{
    glyphs.iter().all(|glyph| glyph.cluster == cluster)
}

/// Moves the glyphs from `start` up to before `middle` after those up to before `end`.
pub(crate) fn rotate(glyphs: &mut [hb_glyph_info_t], start: usize, middle: usize, end: usize)
    requires begins { start ≤ middle }
    requires ordered { middle ≤ end }
    requires within { end ≤ length glyphs.old }
    ensures { glyphs.new ≡ with_range_moved start (middle - start) (end - middle) glyphs.old }
{
    glyphs[start..end].rotate_left(middle - start);
}
