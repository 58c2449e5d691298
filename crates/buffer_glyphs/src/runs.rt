//! Merges of clusters that are in order, at the cost of the range and its neighbouring runs.
ghost use Rattle.std.specs.Prelude.{◌≡◌, ◌≤◌, ◌<◌, ◌++◌, ◌∷◌, [], Some, true, length};
ghost use Rattle.buffer_glyphs.specs.Items.{clusters};
ghost use Rattle.buffer_glyphs.specs.Parts.{first_of, last_of, range_of};
ghost use Rattle.buffer_glyphs.specs.Order.{IsOrdered};
ghost use Rattle.buffer_glyphs.specs.Merges.{least_number};
ghost use Rattle.buffer_glyphs.specs.Glyphs.{glyphs_merged, glyphs_renumbered};

use crate::info::hb_glyph_info_t;
use crate::marks::are_ends_alike;
use crate::merges::{least_cluster, set_clusters, spread, spread_within};

/// Renumbers the clusters that occur from `start` up to before `end` to the least of them, wherever they are. Where all
/// clusters are known to be in order it costs the range and the runs of glyphs at its ends.
pub fn merge_within(glyphs: &mut [hb_glyph_info_t], start: usize, end: usize, in_order: bool)
    requires ordered { start ≤ end }
    requires within { end ≤ length glyphs.old }
    requires known { in_order ≡ true → IsOrdered (clusters glyphs.old) }
    ensures { glyphs.new ≡ glyphs_merged (range_of start end (clusters glyphs.old)) glyphs.old }
{
    if start == end {
        return;
    }
    if !in_order {
        return spread_within(glyphs, start, end);
    }
    if are_ends_alike(&glyphs[start..end]) {
        return;
    }
    merge_in_order(glyphs, start, end);
}

/// Renumbers the clusters that occur in `range` to the least of them, wherever they are among the glyphs. Where the
/// glyphs and the range after them are known to be in order it costs the range and the last run of the glyphs.
pub fn merge_beside(glyphs: &mut [hb_glyph_info_t], range: &[hb_glyph_info_t], in_order: bool)
    requires { in_order ≡ true → IsOrdered (clusters glyphs.old ++ clusters range.now) }
    ensures { glyphs.new ≡ glyphs_merged (clusters range.now) glyphs.old }
{
    if range.is_empty() {
        return;
    }
    // Most merges are of the input alone, with no glyph before it.
    if glyphs.is_empty() {
        return;
    }
    if in_order {
        rename_before(glyphs, range);
    } else {
        spread(glyphs, range, least_cluster(range));
    }
}

/// Renumbers the last glyphs, where they are of the cluster that begins the range.
#[tactic(auto, using(crate::proofs::Joined::order_beside, crate::proofs::Joined::order_second))]
fn rename_before(glyphs: &mut [hb_glyph_info_t], range: &[hb_glyph_info_t])
    requires some { 0 < length range.now }
    requires known { IsOrdered (clusters glyphs.old ++ clusters range.now) }
    ensures { glyphs.new ≡ glyphs_merged (clusters range.now) glyphs.old }
{
    rename_back(glyphs, first_cluster(range), least_in_order(range));
}

/// Renumbers the clusters that occur in `range` to the least of them, wherever they are among the glyphs. Where the
/// range and the glyphs after it are known to be in order it costs the range and the first run of the glyphs.
#[tactic(auto, using(crate::proofs::Joined::order_after))]
pub fn merge_after(glyphs: &mut [hb_glyph_info_t], range: &[hb_glyph_info_t], in_order: bool)
    requires { in_order ≡ true → IsOrdered (clusters range.now ++ clusters glyphs.old) }
    ensures { glyphs.new ≡ glyphs_merged (clusters range.now) glyphs.old }
{
    if range.is_empty() {
        return;
    }
    let low = least_cluster(range);
    if !in_order {
        return spread(glyphs, range, low);
    }
    rename_front(glyphs, last_cluster(range), low);
}

#[tactic(auto, using(crate::proofs::Joined::joined_parts, crate::proofs::Joined::order_front, crate::proofs::Joined::order_range, crate::proofs::Joined::order_back))]
fn merge_in_order(glyphs: &mut [hb_glyph_info_t], start: usize, end: usize)
    requires some { start < end }
    requires within { end ≤ length glyphs.old }
    requires known { IsOrdered (clusters glyphs.old) }
    ensures { glyphs.new ≡ glyphs_merged (range_of start end (clusters glyphs.old)) glyphs.old }
{
    let (front, rest) = glyphs.split_at_mut(start);
    let (range, back) = rest.split_at_mut(end - start);
    let low = least_in_order(range);
    let first = first_cluster(range);
    let last = last_cluster(range);
    rename_back(front, first, low);
    rename_front(back, last, low);
    set_clusters(range, low);
}

/// The least cluster of glyphs whose clusters are in order: it is at one of their ends.
#[tactic(auto, using(crate::proofs::Joined::least_at_ends))]
pub(crate) fn least_in_order(glyphs: &[hb_glyph_info_t]) -> u32
    requires some { 0 < length glyphs.now }
    requires known { IsOrdered (clusters glyphs.now) }
    ensures { result ≡ least_number (clusters glyphs.now) }
{
    first_cluster(glyphs).min(last_cluster(glyphs))
}

#[tactic(auto, using(crate::proofs::Joined::first_cluster_is))]
fn first_cluster(glyphs: &[hb_glyph_info_t]) -> u32
    requires { 0 < length glyphs.now }
    ensures { first_of (clusters glyphs.now) ≡ Some result }
{
    glyphs[0].cluster
}

/// The cluster of the last glyph.
#[tactic(auto, using(crate::proofs::Joined::last_cluster_is))]
pub fn last_cluster(glyphs: &[hb_glyph_info_t]) -> u32
    requires { 0 < length glyphs.now }
    ensures { last_of (clusters glyphs.now) ≡ Some result }
{
    glyphs[glyphs.len() - 1].cluster
}

/// Renumbers the glyphs of the cluster. On clusters in order, with this cluster after all others, they are the last
/// glyphs.
#[tactic(auto, using(crate::proofs::Ends::passed_back))]
fn rename_back(glyphs: &mut [hb_glyph_info_t], cluster: u32, low: u32)
    requires { IsOrdered (clusters glyphs.old ++ cluster ∷ []) }
    ensures { glyphs.new ≡ glyphs_renumbered cluster low glyphs.old }
{
    if cluster == low {
        return;
    }
    let mut at = glyphs.len();
    while at > 0 && glyphs[at - 1].cluster == cluster {
        at -= 1;
    }
    set_clusters(&mut glyphs[at..], low);
}

/// Renumbers the glyphs of the cluster. On clusters in order, with this cluster before all others, they are the first
/// glyphs.
#[tactic(auto, using(crate::proofs::Ends::passed_front))]
fn rename_front(glyphs: &mut [hb_glyph_info_t], cluster: u32, low: u32)
    requires { IsOrdered (cluster ∷ clusters glyphs.old) }
    ensures { glyphs.new ≡ glyphs_renumbered cluster low glyphs.old }
{
    if cluster == low {
        return;
    }
    let mut at = 0;
    while at < glyphs.len() && glyphs[at].cluster == cluster {
        at += 1;
    }
    set_clusters(&mut glyphs[..at], low);
}
