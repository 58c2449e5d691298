//! Merges over clusters that decrease, of which the last waits.
ghost use Rattle.std.specs.Prelude.{◌≡◌, ◌≤◌, ◌<◌, true, length, map};
ghost use Rattle.buffer_glyphs.specs.Items.{clusters};
ghost use Rattle.buffer_glyphs.specs.Parts.{range_of};
ghost use Rattle.buffer_glyphs.specs.Order.{IsFalling, IsOrdered};
ghost use Rattle.buffer_glyphs.specs.Glyphs.{glyphs_merged, in_cluster};
ghost use Rattle.buffer_lists.specs.Falling.{IsDueBefore, IsRound, with_range_in_cluster};

use buffer_glyphs::deletion::end_run;
use buffer_glyphs::info::hb_glyph_info_t;
use buffer_glyphs::merges::{glyph_in_cluster, least_cluster};

/// The glyphs from `from` up to before `to` are still to be renumbered to the cluster. Where clusters decrease, merges
/// of ranges that share clusters renumber the same glyphs again and again; so they are written once the last cluster is
/// known.
#[derive(Clone, Copy)]
pub(crate) struct DueRange {
    pub(super) from: usize,
    pub(super) to: usize,
    pub(super) cluster: u32,
}

/// Renumbers the glyphs to the cluster that is due.
#[tactic(auto, using(crate::proofs::Carried::carried_put))]
pub(super) fn carry_out(glyphs: &mut [hb_glyph_info_t], due: DueRange)
    requires ordered { due.from ≤ due.to }
    requires within { due.to ≤ length glyphs.old }
    ensures { glyphs.new ≡ with_range_in_cluster due glyphs.old }
{
    set_clusters(&mut glyphs[due.from..due.to], due.cluster);
}

#[tactic(auto, using(buffer_glyphs::proofs::Lists::map_step))]
fn set_clusters(glyphs: &mut [hb_glyph_info_t], cluster: u32)
    ensures { glyphs.new ≡ map (in_cluster cluster) glyphs.old }
{
    for glyph in glyphs.iter_mut() {
        *glyph = glyph_in_cluster(*glyph, cluster);
    }
}

/// Merges the glyphs from `start` up to before `end`, after the postponed renumbering. The glyphs of their first
/// cluster are renumbered to the least: these are before them, and may be just the postponed ones.
pub(super) fn merge_falling(
    glyphs: &mut [hb_glyph_info_t],
    due: DueRange,
    start: usize,
    end: usize,
) -> DueRange
    requires some { start < end }
    requires within { end ≤ length glyphs.old }
    requires due { IsDueBefore start due glyphs.old }
    ensures merged { with_range_in_cluster result glyphs.new
        ≡ glyphs_merged (range_of start end (clusters (with_range_in_cluster due glyphs.old))) (with_range_in_cluster due glyphs.old) }
    ensures due { IsDueBefore end result glyphs.new }
    ensures round { IsRound start end result }
{
    let cluster = glyphs[start].cluster;
    let low = least_cluster(&glyphs[start..end]);
    if cluster == low {
        return due;
    }
    let ahead = end_run(&glyphs[due.to..start], cluster);
    if ahead == 0 && due.cluster == cluster {
        return DueRange {
            from: due.from,
            to: end,
            cluster: low,
        };
    }
    carry_out(glyphs, due);
    DueRange {
        from: due.to + ahead,
        to: end,
        cluster: low,
    }
}

/// Whether the last cluster is less than the first: then clusters in order decrease.
#[tactic(auto, using(crate::proofs::Carried::falls_where_lower))]
pub(super) fn ends_lower(glyphs: &[hb_glyph_info_t]) -> bool
    ensures { result ≡ true → IsOrdered (clusters glyphs.now) → IsFalling (clusters glyphs.now) }
{
    if glyphs.is_empty() {
        return false;
    }
    glyphs[glyphs.len() - 1].cluster < glyphs[0].cluster
}
