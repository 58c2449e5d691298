//! Worked rows of slices of glyphs.

use super::rows::{
    are, glyphs_of, have_advances, is_so, level_of, positions_of, size, stand_in_order,
};
use crate::parts::part;
use buffer_glyphs::flags::UnicodeProps;
use buffer_glyphs::info::hb_glyph_info_t;
use buffer_glyphs::level::BufferClusterLevel;
use buffer_lists::deletion_within::delete_within;
use buffer_lists::flags::{AskedFlags, spread_glyph_flags};
use buffer_lists::groups::{group_end, next_cluster, next_grapheme, next_syllable};
use buffer_lists::reversal::reverse_groups;
use buffer_lists::sorting::sort;
use std::alloc::{AllocError, Global};

/// The row has the level, the end of the range that is sorted, whether the clusters are in order, whether a glyph is
/// flagged and whether the clusters are in order afterwards, the glyphs, and the expected result: whether a sort by
/// number, given the order or not, leaves it.
pub fn sorts(alloc: Global, row: &str, has_known_order: bool) -> Result<bool, AllocError> {
    let mut glyphs = glyphs_of(alloc, part(row, 5))?;
    let seen = stand_in_order(&glyphs);
    let end = size(row, 1);
    if glyphs.len() < end || seen != is_so(row, 2) {
        return Ok(false);
    }
    let (marked, in_order) = (is_so(row, 3), is_so(row, 4));
    let key = |info: &hb_glyph_info_t| info.glyph_id;
    let sorted = sort(
        alloc,
        &mut glyphs,
        level_of(row),
        has_known_order && seen,
        0,
        end,
        key,
    )?;
    Ok(are(&glyphs, part(row, 6)) && sorted.marked == marked && sorted.in_order == in_order)
}

/// The row has the level, whether neighbours with one number, or in one cluster, are a group, whether groups are
/// merged, whether the clusters are in order, the glyphs, the expected result, and the advances, after the call, of
/// positions that had 10, 20, 30 and so on: whether a reversal of groups, given the order or not, leaves the result and
/// flags no glyph.
pub fn turns(alloc: Global, row: &str, has_known_order: bool) -> Result<bool, AllocError> {
    let mut glyphs = glyphs_of(alloc, part(row, 5))?;
    let mut positions = positions_of(alloc, glyphs.len())?;
    let seen = stand_in_order(&glyphs);
    if positions.len() != glyphs.len() || seen != is_so(row, 4) {
        return Ok(false);
    }
    let known = has_known_order && seen;
    let (by_number, by_cluster) = (is_so(row, 1), is_so(row, 2));
    let group = |before: &hb_glyph_info_t, after: &hb_glyph_info_t| {
        (by_number && before.glyph_id == after.glyph_id)
            || (by_cluster && before.cluster == after.cluster)
    };
    let merge = is_so(row, 3);
    let marked = reverse_groups(
        &mut glyphs,
        &mut positions,
        level_of(row),
        known,
        merge,
        group,
    );
    Ok(are(&glyphs, part(row, 6)) && have_advances(&positions, part(row, 7)) && !marked)
}

/// The row has the glyphs before and after, and the advances after: whether a deletion of the glyphs with number 0,
/// given the order or not, leaves the expected result.
pub fn deletes(alloc: Global, row: &str, has_known_order: bool) -> Result<bool, AllocError> {
    let mut glyphs = glyphs_of(alloc, part(row, 0))?;
    let mut positions = positions_of(alloc, glyphs.len())?;
    let seen = stand_in_order(&glyphs);
    if positions.len() != glyphs.len() || !seen {
        return Ok(false);
    }
    let known = has_known_order && seen;
    let level = BufferClusterLevel::MonotoneGraphemes;
    let goes = |info: &hb_glyph_info_t| info.glyph_id == 0;
    let (kept, marked) = delete_within(&mut glyphs, &mut positions, level, known, false, goes);
    glyphs.truncate(kept);
    positions.truncate(kept);
    Ok(are(&glyphs, part(row, 1)) && have_advances(&positions, part(row, 2)) && !marked)
}

/// The row has whether UNSAFE_TO_CONCAT and SAFE_TO_INSERT_TATWEEL are requested, and the glyphs before and after:
/// whether a spread of flags leaves such masks.
pub fn spreads(alloc: Global, row: &str) -> Result<bool, AllocError> {
    let mut glyphs = glyphs_of(alloc, part(row, 2))?;
    let asked = AskedFlags {
        concat: is_so(row, 0),
        tatweel: is_so(row, 1),
        breaks: false,
    };
    spread_glyph_flags(&mut glyphs, asked);
    Ok(are(&glyphs, part(row, 3)))
}

fn run_glyph(syllable: u8, props: u16, cluster: u32) -> hb_glyph_info_t {
    hb_glyph_info_t {
        syllable,
        unicode_props: UnicodeProps(props),
        cluster,
        ..hb_glyph_info_t::default()
    }
}

/// Glyphs by syllable and properties, in one cluster up to the second.
fn run_glyphs() -> [hb_glyph_info_t; 4] {
    [
        run_glyph(3, 0, 0),
        run_glyph(3, 0x80, 0),
        run_glyph(4, 0x81, 5),
        run_glyph(4, 1, 5),
    ]
}

// The start of a run, and the end of its cluster, of its syllable, and of its grapheme.
static ENDS: &str = "0;2;2;3
1;2;2;3
3;4;4;4
7;7;7;7";

fn ends(glyphs: &[hb_glyph_info_t], row: &str) -> bool {
    let start = size(row, 0);
    next_cluster(glyphs, start) == size(row, 1)
        && next_syllable(glyphs, start) == size(row, 2)
        && next_grapheme(glyphs, start) == size(row, 3)
}

#[test]
fn ends_runs(rt: HostRuntime) {
    let glyphs = run_glyphs();
    for row in ENDS.lines() {
        assert!(&rt; ends(&glyphs, row), "{row}");
    }
    let end = group_end(&glyphs, 0, |before, after| before.cluster == after.cluster);
    assert_eq!(&rt; end, 2);
}
