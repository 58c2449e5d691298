//! Edits of a few texts by hand, and what of their glyphs they leave as it is.
use crate::rows::{Row, glyphs_of, make_row};
use crate::{Edit, EditRange, edit_range};
use kuspveli::Direction;
use std::alloc::Global;
use std::process::Abort;
use std::test::Fail;

/// A text from left to right, each of its letters a byte and a glyph.
const fn letters<'a>(text: &'a str, clusters: &'a [u32], is_unsafe: &'a [bool]) -> Row<'a> {
    make_row(text, Direction::LeftToRight, clusters, &[], is_unsafe)
}

const fn edit(start: usize, old_end: usize, new_end: usize, rest: usize) -> Edit {
    Edit {
        start,
        old_end,
        new_end,
        rest,
    }
}

fn has_range(
    rt: &impl Abort,
    alloc: Global,
    old: Row<'_>,
    new: Row<'_>,
    edit: Edit,
    want: Option<(usize, usize, usize)>,
) -> Result<(), Fail> {
    let old_glyphs = glyphs_of(alloc, old)?;
    let new_glyphs = glyphs_of(alloc, new)?;
    let range = edit_range(&old_glyphs, &new_glyphs, old.direction, edit);
    let found = match range {
        Some(
            EditRange {
                from,
                old_to,
                new_to,
            },
        ) => Some((from, old_to, new_to)),
        None => None,
    };
    assert!(rt; found == want);
    Ok(())
}

#[test]
fn an_insertion_keeps_the_rest(rt: HostRuntime) -> Result<(), Fail> {
    let alloc = rt.alloc();
    let old = letters("abcd", &[0, 1, 2, 3], &[]);
    let plain = letters("abxcd", &[0, 1, 2, 3, 4], &[]);
    has_range(&rt, alloc, old, plain, edit(2, 2, 3, 2), Some((2, 2, 3)))?;
    // the new letter is joined to its neighbours
    let joined = letters("abxcd", &[0, 1, 2, 3, 4], &[false, false, true, true]);
    has_range(&rt, alloc, old, joined, edit(2, 2, 3, 2), Some((1, 3, 4)))?;
    // and all after it
    let all = letters("abxcd", &[0, 1, 2, 3, 4], &[false, true, true, true, true]);
    has_range(&rt, alloc, old, all, edit(2, 2, 3, 2), Some((0, 4, 5)))?;
    // at the end of the text, and at its start
    let longer = letters("abcdx", &[0, 1, 2, 3, 4], &[]);
    has_range(&rt, alloc, old, longer, edit(4, 4, 5, 0), Some((4, 4, 5)))?;
    let after = letters(
        "abcdx",
        &[0, 1, 2, 3, 4],
        &[false, false, false, false, true],
    );
    has_range(&rt, alloc, old, after, edit(4, 4, 5, 0), Some((3, 4, 5)))?;
    let before = letters("xabcd", &[0, 1, 2, 3, 4], &[false, true]);
    has_range(&rt, alloc, old, before, edit(0, 0, 1, 4), Some((0, 1, 2)))
}

#[test]
fn a_ligature_is_drawn_again(rt: HostRuntime) -> Result<(), Fail> {
    let alloc = rt.alloc();
    let ligature = letters("afib", &[0, 1, 3], &[]);
    let other = letters("afxb", &[0, 1, 2, 3], &[]);
    has_range(
        &rt,
        alloc,
        ligature,
        other,
        edit(2, 3, 3, 1),
        Some((1, 3, 3)),
    )?;
    has_range(
        &rt,
        alloc,
        other,
        ligature,
        edit(2, 3, 3, 1),
        Some((1, 3, 3)),
    )?;
    // the first half of it is deleted
    let less = letters("aib", &[0, 1, 2], &[]);
    has_range(
        &rt,
        alloc,
        ligature,
        less,
        edit(1, 2, 1, 2),
        Some((1, 3, 2)),
    )?;
    // a flag on one glyph of two of a cluster
    let marked = letters("afxb", &[0, 1, 2, 2, 3], &[false, false, false, true]);
    has_range(&rt, alloc, marked, other, edit(3, 3, 3, 1), Some((3, 3, 3)))?;
    has_range(&rt, alloc, marked, other, edit(2, 2, 2, 2), Some((1, 3, 3)))
}

#[test]
fn backward_texts_have_ranges(rt: HostRuntime) -> Result<(), Fail> {
    let alloc = rt.alloc();
    let old = make_row("abc", Direction::RightToLeft, &[2, 1, 0], &[], &[]);
    let new = make_row(
        "abxc",
        Direction::RightToLeft,
        &[3, 2, 1, 0],
        &[],
        &[true, true],
    );
    has_range(&rt, alloc, old, new, edit(2, 2, 3, 1), Some((1, 3, 4)))
}

#[test]
fn other_edits_have_none(rt: HostRuntime) -> Result<(), Fail> {
    let alloc = rt.alloc();
    let old = letters("ab", &[0, 1], &[]);
    let turned = letters("ab", &[1, 0], &[]);
    has_range(&rt, alloc, old, old, edit(1, 0, 1, 1), None)?;
    has_range(&rt, alloc, old, old, edit(1, 1, 0, 1), None)?;
    has_range(&rt, alloc, old, old, edit(1, 1, 1, usize::MAX), None)?;
    has_range(&rt, alloc, old, turned, edit(1, 1, 1, 1), None)?;
    has_range(&rt, alloc, turned, old, edit(1, 1, 1, 1), None)
}
