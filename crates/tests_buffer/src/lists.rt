//! Merges, groups, sorts, deletions and flags in lists of glyphs.
mod both_lists;
mod clusters;
mod rows;
mod slices;

use std::alloc::{AllocError, Global};
use std::test::Fail;

// Each row has the call, and after it its arguments and the expected result. In the third sort each two ranges share a
// cluster. In the third reversal there are groups of falling clusters, two of which share one; in the last a merge
// makes neighbours a group.
static ROWS: &str =
    "sort;graphemes;4;true;false;true;5,0,0 7,1,1 6,2,9 7,3,2;5,0,0 6,1,8 7,1,1 7,3,2
sort;apart;2;true;true;false;2,0,0 1,1,0 0,2,0;1,1,3 2,0,0 0,2,0
sort;graphemes;6;true;false;true;2,5,9 1,4,9 4,4,9 3,3,9 6,3,9 5,2,9;1,2,8 2,2,8 3,2,8 4,2,8 5,2,9 6,2,8
sort;characters;7;true;false;true;2,9,9 1,8,9 4,5,9 3,4,9 5,4,9 7,4,9 6,1,9;1,8,9 2,8,8 3,1,8 4,1,8 5,1,8 6,1,9 7,1,8
sort;graphemes;14;false;false;true;4,7,9 3,3,9 2,9,9 1,3,9 8,9,9 7,5,9 6,8,9 5,5,9 12,1,9 11,12,9 10,6,9 9,6,9 13,8,9 14,20,9;1,3,9 2,3,8 3,3,9 4,3,8 5,3,8 6,3,8 7,3,8 8,3,8 9,1,8 10,1,8 11,1,8 12,1,9 13,3,8 14,20,9
turn;graphemes;false;true;false;true;1,0,0 2,0,0 3,5,0;3,5,0 1,0,0 2,0,0;30 10 20
turn;graphemes;true;false;true;true;1,0,0 1,1,0 2,1,0 3,2,0;3,2,0 2,0,0 1,0,0 1,0,0;40 30 10 20
turn;graphemes;true;false;true;true;1,9,9 1,8,9 2,5,9 2,4,9 3,4,9 3,3,9 4,1,9;4,1,9 3,3,8 3,3,9 2,3,8 2,3,8 1,8,8 1,8,9;70 50 60 30 40 10 20
turn;characters;true;false;true;false;1,9,9 1,4,9 2,9,9 2,6,9 3,7,9;3,7,9 2,4,8 2,4,8 1,4,8 1,4,9;50 30 40 10 20
turn;graphemes;true;true;true;false;1,8,9 1,3,9 1,6,9 2,8,9 3,3,9;2,3,8 3,3,9 1,3,8 1,3,9 1,3,8;40 50 10 20 30
delete;1,9,0 0,8,1 0,7,2 2,6,0;1,7,2 2,6,0;10 40
delete;0,0,0 1,1,1 2,1,0;1,0,0 2,0,0;20 30
spread;false;false;1,0,257 2,0,2 3,3,2 4,0,1;1,0,1 2,0,1 3,3,0 4,0,1
spread;true;false;1,0,257 2,0,2 3,3,2 4,0,1;1,0,3 2,0,3 3,3,2 4,0,1
spread;false;true;1,0,4 2,0,32 3,2,5 4,2,0;1,0,5 2,0,5 3,2,1 4,2,1
spread;true;true;1,0,4 2,0,32 3,2,5 4,2,0;1,0,7 2,0,7 3,2,1 4,2,1
input;12;0,3,8 0,4,15 0,50,15 0,3,8 0,3,8;0,8,15 0,3,15 0,3,8 0,3,8 0,3,8 0,3,8 0,3,15 0,3,8 0,3,8 0,3,8 0,3,8 0,40,15 0,3,8
input;5;0,30,15 0,4,15 0,50,15 0,3,8 0,7,15;0,8,15 0,3,15 0,3,8 0,3,8 0,30,15 0,9,15 0,3,15 0,21,15 0,7,15 0,15,15 0,6,15 0,40,15 0,3,8
output;12;0,3,8 0,8,15 0,3,15 0,3,8 0,3,8 0,3,8 0,3,8 0,3,15 0,3,8 0,3,8 0,3,8 0,3,8 0,40,15 0,3,8;0,3,8 0,4,15 0,50,15 0,3,8 0,3,8
output;5;0,6,15 0,8,15 0,3,15 0,3,8 0,3,8 0,30,15 0,9,15 0,3,15 0,21,15 0,7,15 0,15,15 0,6,15 0,40,15 0,3,8;0,30,15 0,4,15 0,50,15 0,3,8 0,7,15
range;graphemes;1;3;false;1,0,1 2,1,1 3,2,9 4,2,2;1,0,1 2,1,1 3,1,8 4,1,0
range;apart;0;2;true;1,0,1 2,1,1 3,1,8 4,1,0;1,0,1 2,1,3 3,1,8 4,1,0";

/// Whether a call, given the order or not where it may be, leaves the expected result.
fn holds(alloc: Global, row: &str, has_known_order: bool) -> Result<bool, AllocError> {
    let (call, row) = row.split_once(';').unwrap_or(("", row));
    match call {
        "sort" => slices::sorts(alloc, row, has_known_order),
        "turn" => slices::turns(alloc, row, has_known_order),
        "delete" => slices::deletes(alloc, row, has_known_order),
        "spread" => slices::spreads(alloc, row),
        "input" => both_lists::merges(alloc, row),
        "output" => both_lists::merges_output(alloc, row),
        "range" => clusters::merges(alloc, row, has_known_order),
        _ => Ok(false),
    }
}

#[test]
fn calls_leave_what_is_wanted(rt: HostRuntime) -> Result<(), Fail> {
    for row in ROWS.lines() {
        let as_wanted = holds(rt.alloc(), row, false)? && holds(rt.alloc(), row, true)?;
        assert!(rt; as_wanted, "{row}");
    }
    Ok(())
}
