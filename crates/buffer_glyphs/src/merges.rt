//! Merges of clusters in a slice (rustybuzz: hb/buffer.rs, `merge_clusters`).
ghost use Rattle.std.specs.Prelude.{◌≡◌, ◌≤◌, length, slice_range, map};
ghost use Rattle.buffer_glyphs.specs.Items.{clusters, without_flags};
ghost use Rattle.buffer_glyphs.specs.Parts.{range_of};
ghost use Rattle.buffer_glyphs.specs.Order.{has_number};
ghost use Rattle.buffer_glyphs.specs.Merges.{least_number, merged_number};
ghost use Rattle.buffer_glyphs.specs.Glyphs.{glyphs_merged, in_cluster};

use crate::info::{DEFINED, hb_glyph_info_t};

/// The least cluster of the glyphs, 0 where there are none.
pub fn least_cluster(glyphs: &[hb_glyph_info_t]) -> u32
    ensures { result ≡ least_number (clusters glyphs.now) }
{
    match glyphs {
        [] => 0,
        [first, rest @ ..] => rest
            .iter()
            .map(|glyph| glyph.cluster)
            .fold(first.cluster, |least, cluster| least.min(cluster)),
    }
}

/// Whether one of the glyphs has the cluster.
pub fn has_cluster(glyphs: &[hb_glyph_info_t], cluster: u32) -> bool
    ensures { result ≡ has_number (clusters glyphs.now) cluster }
{
    glyphs
        .iter()
        .map(|glyph| glyph.cluster)
        .any(|other| other == cluster)
}

/// The glyph in the cluster; where it was in another, its three glyph flags are cleared.
pub fn glyph_in_cluster(glyph: hb_glyph_info_t, cluster: u32) -> hb_glyph_info_t
    ensures { result ≡ in_cluster cluster glyph }
{
    if glyph.cluster == cluster {
        glyph
    } else {
        hb_glyph_info_t {
            mask: glyph.mask - (glyph.mask & DEFINED),
            cluster,
            ..glyph
        }
    }
}

fn merged_glyph(glyph: hb_glyph_info_t, range: &[hb_glyph_info_t], low: u32) -> hb_glyph_info_t
    requires { low ≡ least_number (clusters range.now) }
    ensures { result ≡ in_cluster (merged_number (clusters range.now) glyph.cluster) glyph }
{
    if has_cluster(range, glyph.cluster) {
        glyph_in_cluster(glyph, low)
    } else {
        glyph
    }
}

/// Renumbers the clusters that occur in `range` to the least of them, `low`, wherever they are among the glyphs.
#[tactic(auto, using(crate::proofs::Lists::map_step))]
pub fn spread(glyphs: &mut [hb_glyph_info_t], range: &[hb_glyph_info_t], low: u32)
    requires { low ≡ least_number (clusters range.now) }
    ensures { glyphs.new ≡ glyphs_merged (clusters range.now) glyphs.old }
{
    for glyph in glyphs.iter_mut() {
        *glyph = merged_glyph(*glyph, range, low);
    }
}

/// Renumbers the clusters that occur from `start` up to before `end` to the least of them, wherever they are.
#[tactic(auto, using(crate::proofs::Parts::merged_parts))]
pub fn spread_within(glyphs: &mut [hb_glyph_info_t], start: usize, end: usize)
    requires ordered { start ≤ end }
    requires within { end ≤ length glyphs.old }
    ensures { glyphs.new ≡ glyphs_merged (range_of start end (clusters glyphs.old)) glyphs.old }
{
    let (front, rest) = glyphs.split_at_mut(start);
    let (range, back) = rest.split_at_mut(end - start);
    let low = least_cluster(range);
    spread(front, range, low);
    spread(back, range, low);
    set_clusters(range, low);
}

#[tactic(auto, using(crate::proofs::Lists::map_step))]
pub(crate) fn set_clusters(glyphs: &mut [hb_glyph_info_t], cluster: u32)
    ensures { glyphs.new ≡ map (in_cluster cluster) glyphs.old }
{
    for glyph in glyphs.iter_mut() {
        *glyph = glyph_in_cluster(*glyph, cluster);
    }
}
