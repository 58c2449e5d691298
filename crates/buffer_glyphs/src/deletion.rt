//! Deletes one glyph from a slice (rustybuzz: hb/buffer.rs, `delete_glyph`).
ghost use Rattle.std.specs.Prelude.{◌≡◌, ◌+◌, ◌<◌, ◌≤◌, [], true, length, map, take, drop};
ghost use Rattle.buffer_glyphs.specs.Items.{clusters};
ghost use Rattle.buffer_glyphs.specs.Parts.{first_of, is_number};
ghost use Rattle.buffer_glyphs.specs.Order.{IsOrdered};
ghost use Rattle.buffer_glyphs.specs.Deleting.{Deletes, recast, end_recast, IsEndRun};

use crate::info::{DEFINED, hb_glyph_info_t, hb_mask_t};
use crate::level::BufferClusterLevel;
use crate::ranges::merge_at;
use crate::runs::last_cluster;

/// Puts the glyph into the cluster; where it was in another, the three glyph flags of `mask` replace its own.
pub fn set_cluster(info: &mut hb_glyph_info_t, cluster: u32, mask: hb_mask_t)
    ensures { info.new ≡ recast cluster mask info.old }
{
    if info.cluster != cluster {
        info.cluster = cluster;
        info.mask = info.mask - (info.mask & DEFINED) + (mask & DEFINED);
    }
}

/// Moves the glyphs at the end of the slice that are of the last one's cluster to the cluster of `glyph`, with its
/// three flags.
#[tactic(auto, using(crate::proofs::EndRuns::end_of_none, crate::proofs::EndRuns::end_put))]
pub fn recast_end(glyphs: &mut [hb_glyph_info_t], glyph: &hb_glyph_info_t)
    ensures { glyphs.new ≡ end_recast glyph.now glyphs.old }
{
    if glyphs.is_empty() {
        return;
    }
    let cluster = last_cluster(glyphs);
    let at = end_run(glyphs, cluster);
    recast_all(&mut glyphs[at..], glyph);
}

/// Whether there is a glyph at `at`, of the cluster.
#[tactic(auto, using(crate::proofs::FirstDeleted::next_is, crate::proofs::FirstDeleted::next_none))]
pub fn next_has(glyphs: &[hb_glyph_info_t], at: usize, cluster: u32) -> bool
    ensures { result ≡ is_number (first_of (clusters (drop at glyphs.now))) cluster }
{
    if glyphs.len() <= at {
        return false;
    }
    glyphs[at].cluster == cluster
}

/// The index of the first glyph of the run of the cluster at the end.
pub fn end_run(glyphs: &[hb_glyph_info_t], cluster: u32) -> usize
    ensures within { result ≤ length glyphs.now }
    ensures begins { IsEndRun cluster result glyphs.now }
{
    let mut at = glyphs.len();
    while at > 0 && glyphs[at - 1].cluster == cluster {
        at -= 1;
    }
    at
}

#[tactic(auto, using(crate::proofs::Lists::map_step))]
fn recast_all(glyphs: &mut [hb_glyph_info_t], glyph: &hb_glyph_info_t)
    ensures { glyphs.new ≡ map (recast glyph.now.cluster glyph.now.mask) glyphs.old }
{
    for other in glyphs.iter_mut() {
        *other = recast(*other, glyph.cluster, glyph.mask);
    }
}

fn recast(glyph: hb_glyph_info_t, cluster: u32, mask: hb_mask_t) -> hb_glyph_info_t
    ensures { result ≡ recast cluster mask glyph }
{
    let mut other = glyph;
    set_cluster(&mut other, cluster, mask);
    other
}

/// Deletes the glyph at `at`, where no glyph before it is left: a next glyph of another cluster is merged with it. The
/// glyph at `at` has no meaning afterwards. Answers whether another glyph was flagged.
pub fn delete_at_front(
    glyphs: &mut [hb_glyph_info_t],
    at: usize,
    level: BufferClusterLevel,
    in_order: bool,
) -> bool
    requires within { at < length glyphs.old }
    requires known { in_order ≡ true → IsOrdered (clusters (drop at glyphs.old)) }
    ensures deletes { Deletes level [] (drop at glyphs.old) [] (drop (at + 1) glyphs.new) result }
    ensures before { take at glyphs.new ≡ take at glyphs.old }
{
    let (_, rest) = glyphs.split_at_mut(at);
    delete_first(rest, level, in_order)
}

/// Deletes the first of some glyphs, where no glyph is before it.
#[tactic(auto, using(crate::proofs::FirstDeleted::first_alone, crate::proofs::FirstDeleted::first_same, crate::proofs::FirstDeleted::first_other))]
fn delete_first(rest: &mut [hb_glyph_info_t], level: BufferClusterLevel, in_order: bool) -> bool
    requires some { 0 < length rest.old }
    requires known { in_order ≡ true → IsOrdered (clusters rest.old) }
    ensures { Deletes level [] rest.old [] (drop 1 rest.new) result }
{
    if rest.len() < 2 {
        return false;
    }
    if rest[0].cluster == rest[1].cluster {
        return false;
    }
    merge_at(rest, level, 0, 2, in_order)
}
