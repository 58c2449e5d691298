//! Flags of deleted glyphs handed on to their neighbours, so that clusters stay unsafe to break (of this project).
ghost use Rattle.std.specs.Prelude.{◌≡◌, ◌≤◌, ◌+◌, length, take, drop};
ghost use Rattle.buffer_glyphs.specs.Deleting.{glyphs_handed_after, glyphs_handed_before};
ghost use Rattle.buffer_glyphs.specs.Glyphs.{glyph_flagged};
ghost use Rattle.buffer_glyphs.specs.Items.{clusters};
ghost use Rattle.buffer_glyphs.specs.Origins.{flags_for, origins, other_cluster, with_first_changed, with_last_changed};
ghost use Rattle.buffer_glyphs.specs.Parts.{first_of, last_of};

use buffer_glyphs::info::{hb_glyph_info_t, hb_mask_t};
use buffer_glyphs::marks::flag_all;
use buffer_glyphs::run_flags::unsafe_flags;
use buffer_glyphs::runs::last_cluster;

/// Hands on the flags of deleted glyphs: the glyph before them gets the flags of those of its cluster that are unsafe to
/// break; the one after gets those of its cluster, unless the one before is of that cluster.
pub fn hand_on(
    output: &mut [hb_glyph_info_t],
    input: &mut [hb_glyph_info_t],
    deleted: &[hb_glyph_info_t],
)
    ensures output { output.new ≡ glyphs_handed_before deleted.now output.old }
    ensures input { input.new ≡ glyphs_handed_after deleted.now (last_of (clusters output.old)) input.old }
{
    let before = end_cluster(output);
    hand_to_first(input, before, deleted);
    flag_last(output, flags_for(before, deleted));
}

/// Hands on the flags of deleted glyphs to the first one after them, where the one before them is of another cluster.
pub fn hand_to_first(
    input: &mut [hb_glyph_info_t],
    before: Option<u32>,
    deleted: &[hb_glyph_info_t],
)
    ensures { input.new ≡ glyphs_handed_after deleted.now before input.old }
{
    let after = other_cluster(before, front_cluster(input));
    flag_first(input, flags_for(after, deleted));
}

/// The flags that a neighbour of a cluster gets from deleted glyphs.
pub fn flags_for(cluster: Option<u32>, deleted: &[hb_glyph_info_t]) -> hb_mask_t
    ensures { result ≡ flags_for cluster (origins deleted.now) }
{
    match cluster {
        Some(cluster) => unsafe_flags(deleted, cluster),
        None => 0,
    }
}

/// The cluster of the neighbour after deleted glyphs, where the one before them is of another.
pub fn other_cluster(before: Option<u32>, after: Option<u32>) -> Option<u32>
    ensures { result ≡ other_cluster before after }
{
    match (before, after) {
        (Some(before), Some(after)) if before == after => None,
        _ => after,
    }
}

/// The cluster of the last glyph, if there is one.
pub fn end_cluster(glyphs: &[hb_glyph_info_t]) -> Option<u32>
    ensures { result ≡ last_of (clusters glyphs.now) }
{
    if glyphs.is_empty() {
        return None;
    }
    Some(last_cluster(glyphs))
}

/// The cluster of the first glyph, if there is one.
pub fn front_cluster(glyphs: &[hb_glyph_info_t]) -> Option<u32>
    ensures { result ≡ first_of (clusters glyphs.now) }
{
    match glyphs {
        [first, ..] => Some(first.cluster),
        [] => None,
    }
}

/// Sets flags on the last glyph, if there is one.
pub fn flag_last(glyphs: &mut [hb_glyph_info_t], flags: hb_mask_t)
    ensures { glyphs.new ≡ with_last_changed (glyph_flagged flags) glyphs.old }
{
    let last = glyphs.len().saturating_sub(1);
    flag_all(&mut glyphs[last..], flags);
}

/// Sets flags on the first glyph, if there is one.
pub fn flag_first(glyphs: &mut [hb_glyph_info_t], flags: hb_mask_t)
    ensures { glyphs.new ≡ with_first_changed (glyph_flagged flags) glyphs.old }
{
    if !glyphs.is_empty() {
        flag_all(&mut glyphs[..1], flags);
    }
}
