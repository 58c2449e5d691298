//! Worked rows of the order of clusters.

use super::rows::{are, glyph, glyphs_of, is_so, level_of, size, stand_in_order};
use crate::parts::part;
use buffer_glyphs::deletion::{recast_end, set_cluster};
use buffer_glyphs::ranges::merge_range;
use std::alloc::{AllocError, Global};
use std::test::Fail;

/// The row has the level, the start and the end of the range, whether a glyph is flagged, and the glyphs before and
/// after: whether a merge, given the order or not, leaves the expected glyphs.
pub fn merges(alloc: Global, row: &str, has_known_order: bool) -> Result<bool, AllocError> {
    let mut glyphs = glyphs_of(alloc, part(row, 4))?;
    let seen = stand_in_order(&glyphs);
    let (start, end) = (size(row, 1), size(row, 2));
    if end < start || glyphs.len() < end || !seen {
        return Ok(false);
    }
    let known = has_known_order && seen;
    let marked = merge_range(&mut glyphs, level_of(row), start, end, known);
    Ok(marked == is_so(row, 3) && are(&glyphs, part(row, 5)))
}

fn recasts(alloc: Global) -> Result<bool, AllocError> {
    let mut glyphs = glyphs_of(alloc, "1,6,0 2,5,1 3,5,8")?;
    recast_end(&mut glyphs, &glyph("9,3,2"));
    Ok(are(&glyphs, "1,6,0 2,3,2 3,3,10"))
}

/// Whether setting the cluster of a glyph with a mask leaves the expected glyph.
fn casts(cluster: u32, mask: u32, wanted: &str) -> bool {
    let mut info = glyph("1,4,9");
    set_cluster(&mut info, cluster, mask);
    info == glyph(wanted)
}

#[test]
fn casts_glyphs_into_a_cluster(rt: HostRuntime) -> Result<(), Fail> {
    assert!(rt; casts(4, 2, "1,4,9"));
    assert!(rt; casts(3, 18, "1,3,10"));
    let recast = recasts(rt.alloc())?;
    assert!(rt; recast);
    Ok(())
}
