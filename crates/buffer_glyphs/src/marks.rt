//! Glyph flags set on ranges of a slice (rustybuzz: hb/buffer.rs, `_set_glyph_flags`, `_infos_set_glyph_flags`).
//!
//! Merges (`ranges`) have clauses of the same form: both change a range by the clusters in it.
ghost use Rattle.std.specs.Prelude.{◌≡◌, ◌==◌, ◌≤◌, ◌++◌, true, false, not, length, map};
ghost use Rattle.std.specs.List.{list_any};
ghost use Rattle.buffer_glyphs.specs.Items.{clusters};
ghost use Rattle.buffer_glyphs.specs.Parts.{range_of};
ghost use Rattle.buffer_glyphs.specs.Order.{IsOrdered};
ghost use Rattle.buffer_glyphs.specs.Merges.{least_number};
ghost use Rattle.buffer_glyphs.specs.Glyphs.{glyph_flagged, glyphs_flagged, glyphs_marked, marked_outside, has_several_numbers};

use crate::info::{hb_glyph_info_t, hb_mask_t};
use crate::merges::least_cluster;

/// Sets flags on the glyphs from `start` up to before `end` outside the least cluster among them; answers whether there
/// are such. Where their clusters are known to be in order, ranges of one cluster are not walked.
#[tactic(auto, using(crate::proofs::Parts::marked_parts, crate::proofs::Parts::told_apart))]
pub fn mark_within(
    glyphs: &mut [hb_glyph_info_t],
    start: usize,
    end: usize,
    flags: hb_mask_t,
    in_order: bool,
) -> bool
    requires ordered { start ≤ end }
    requires within { end ≤ length glyphs.old }
    requires known { in_order ≡ true → IsOrdered (range_of start end (clusters glyphs.old)) }
    ensures marked { glyphs.new ≡ glyphs_marked flags start end glyphs.old }
    ensures any { result ≡ has_several_numbers (range_of start end (clusters glyphs.old)) }
{
    if in_order && are_ends_alike(&glyphs[start..end]) {
        return false;
    }
    mark_apart(&mut glyphs[start..end], flags)
}

/// Sets flags on the glyphs outside their least cluster; answers whether there are such. Most ranges are of one cluster.
fn mark_apart(glyphs: &mut [hb_glyph_info_t], flags: hb_mask_t) -> bool
    ensures marked { glyphs.new ≡ map (marked_outside flags (least_number (clusters glyphs.old))) glyphs.old }
    ensures any { result ≡ has_several_numbers (clusters glyphs.old) }
{
    let low = least_cluster(glyphs);
    let any = has_other_cluster(glyphs, low);
    if any {
        mark_outside(glyphs, low, flags);
    }
    any
}

/// Whether the first and the last glyph are of one cluster, or there are none; on clusters in order, all glyphs between
/// are too.
pub(crate) fn are_ends_alike(glyphs: &[hb_glyph_info_t]) -> bool
    ensures { IsOrdered (clusters glyphs.now) → result ≡ true → has_several_numbers (clusters glyphs.now) ≡ false }
{
    if glyphs.is_empty() {
        return true;
    }
    glyphs[0].cluster == glyphs[glyphs.len() - 1].cluster
}

/// Sets flags on the glyphs behind the buffer's cursor and those ahead of it, outside the least cluster of both lists;
/// answers whether there are such.
#[tactic(auto, using(crate::proofs::Across::told_across))]
pub fn mark_across(
    behind: &mut [hb_glyph_info_t],
    ahead: &mut [hb_glyph_info_t],
    flags: hb_mask_t,
) -> bool
    ensures behind { behind.new
        ≡ map (marked_outside flags (least_number (clusters behind.old ++ clusters ahead.old))) behind.old }
    ensures ahead { ahead.new
        ≡ map (marked_outside flags (least_number (clusters behind.old ++ clusters ahead.old))) ahead.old }
    ensures any { result ≡ has_several_numbers (clusters behind.old ++ clusters ahead.old) }
{
    let low = least_across(behind, ahead);
    let any = has_other_cluster(behind, low) || has_other_cluster(ahead, low);
    mark_outside(behind, low, flags);
    mark_outside(ahead, low, flags);
    any
}

/// The least cluster of both lists, 0 where there is no glyph.
#[tactic(auto, using(crate::proofs::Across::least_second, crate::proofs::Across::least_first, crate::proofs::Across::least_both))]
fn least_across(behind: &[hb_glyph_info_t], ahead: &[hb_glyph_info_t]) -> u32
    ensures { result ≡ least_number (clusters behind.now ++ clusters ahead.now) }
{
    if behind.is_empty() {
        return least_cluster(ahead);
    }
    if ahead.is_empty() {
        return least_cluster(behind);
    }
    least_cluster(behind).min(least_cluster(ahead))
}

/// Whether one of the glyphs is outside the cluster.
fn has_other_cluster(glyphs: &[hb_glyph_info_t], cluster: u32) -> bool
    ensures { result ≡ list_any (λ n. not (n == cluster)) (clusters glyphs.now) }
{
    glyphs
        .iter()
        .map(|glyph| glyph.cluster)
        .any(|other| other != cluster)
}

#[tactic(auto, using(crate::proofs::Lists::map_step))]
fn mark_outside(glyphs: &mut [hb_glyph_info_t], cluster: u32, flags: hb_mask_t)
    ensures { glyphs.new ≡ map (marked_outside flags cluster) glyphs.old }
{
    for glyph in glyphs.iter_mut() {
        *glyph = marked(*glyph, cluster, flags);
    }
}

fn marked(glyph: hb_glyph_info_t, cluster: u32, flags: hb_mask_t) -> hb_glyph_info_t
    ensures { result ≡ marked_outside flags cluster glyph }
{
    if glyph.cluster == cluster {
        glyph
    } else {
        hb_glyph_info_t {
            mask: glyph.mask | flags,
            ..glyph
        }
    }
}

/// Sets flags on the glyphs from `start` up to before `end`.
#[tactic(auto, using(crate::proofs::Parts::flagged_parts))]
pub fn flag_within(glyphs: &mut [hb_glyph_info_t], start: usize, end: usize, flags: hb_mask_t)
    requires ordered { start ≤ end }
    requires within { end ≤ length glyphs.old }
    ensures { glyphs.new ≡ glyphs_flagged flags start end glyphs.old }
{
    flag_all(&mut glyphs[start..end], flags);
}

/// Sets flags on all glyphs.
#[tactic(auto, using(crate::proofs::Lists::map_step))]
pub fn flag_all(glyphs: &mut [hb_glyph_info_t], flags: hb_mask_t)
    ensures { glyphs.new ≡ map (glyph_flagged flags) glyphs.old }
{
    for glyph in glyphs.iter_mut() {
        glyph.mask |= flags;
    }
}
