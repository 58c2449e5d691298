//! Worked rows of both lists of a buffer, the output and the input.

use super::rows::{are, glyphs_of, size};
use crate::parts::part;
use buffer_glyphs::level::BufferClusterLevel;
use buffer_lists::merges::{merge_input, merge_output};
use buffer_lists::order::KnownOrder;
use std::alloc::{AllocError, Global};

const LEVEL: BufferClusterLevel = BufferClusterLevel::MonotoneGraphemes;

// Each glyph has all three flags and another mask bit.
static LONG: &str =
    "0,6,15 0,8,15 0,3,15 0,12,15 0,5,15 0,30,15 0,9,15 0,3,15 0,21,15 0,7,15 0,15,15 0,6,15 0,40,15 0,5,15";

/// The row has the end of the range, the output after the merge, and the input from 1 on. The input's range from 2 up
/// to before 12 has ten glyphs in no order, that up to before 5 has three.
pub fn merges(alloc: Global, row: &str) -> Result<bool, AllocError> {
    let mut info = glyphs_of(alloc, LONG)?;
    let mut out = glyphs_of(alloc, "0,30,15 0,4,15 0,50,15 0,12,15 0,7,15")?;
    let end = size(row, 0);
    if end < 2 || info.len() < end {
        return Ok(false);
    }
    let known = KnownOrder::Unknown;
    let (marked, _) = merge_input(&mut out, &mut info[1..], 1, end - 1, LEVEL, known);
    Ok(!marked && are(&out, part(row, 1)) && are(&info[1..], part(row, 2)))
}

/// The merge of a range of the output.
pub fn merges_output(alloc: Global, row: &str) -> Result<bool, AllocError> {
    let mut info = glyphs_of(alloc, "0,12,15 0,30,15 0,4,15 0,50,15 0,12,15 0,7,15")?;
    let mut out = glyphs_of(alloc, LONG)?;
    let end = size(row, 0);
    if end < 2 || out.len() < end || info.is_empty() {
        return Ok(false);
    }
    merge_output(&mut out, &mut info[1..], 2, end, LEVEL, KnownOrder::Unknown);
    Ok(are(&out, part(row, 1)) && are(&info[1..], part(row, 2)))
}
