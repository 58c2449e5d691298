//! Cells of a few lines by hand: clusters and numbers of glyphs, and which cells they are in.
use crate::{CellFault, CellGrid, CellRange, CellRun, cell_grid, cells_to_draw, columns_of};
use kuspveli::{Direction, GlyphBuffer, UnicodeBuffer};
use std::alloc::{AllocError, Global};
use std::process::Abort;
use std::test::Fail;

/// A text of a direction, with the clusters and the numbers of its glyphs.
#[derive(Clone, Copy)]
struct Row<'a> {
    text: &'a str,
    direction: Direction,
    clusters: &'a [u32],
    numbers: &'a [u32],
}

const fn make_row<'a>(text: &'a str, direction: Direction, clusters: &'a [u32]) -> Row<'a> {
    Row {
        text,
        direction,
        clusters,
        numbers: &[],
    }
}

/// A left-to-right line.
const fn make_line<'a>(text: &'a str, clusters: &'a [u32], numbers: &'a [u32]) -> Row<'a> {
    Row {
        text,
        direction: Direction::LeftToRight,
        clusters,
        numbers,
    }
}

fn glyphs_of(alloc: Global, row: Row<'_>) -> Result<GlyphBuffer, AllocError> {
    let mut text = UnicodeBuffer::new(alloc);
    for cluster in row.clusters {
        let _added = text.add('x', *cluster)?;
    }
    let mut buffer = text.into_buffer();
    for (info, number) in buffer.info_slice_mut().iter_mut().zip(row.numbers) {
        info.glyph_id = *number;
    }
    Ok(GlyphBuffer::from_buffer(buffer))
}

fn grid_of(alloc: Global, row: Row<'_>) -> Result<Result<CellGrid, CellFault>, AllocError> {
    let glyphs = glyphs_of(alloc, row)?;
    Ok(cell_grid(alloc, &glyphs, row.text, row.direction))
}

/// A run's bytes, its cells and its glyphs.
fn push_run(text: &mut String, run: CellRun) -> Result<(), AllocError> {
    let CellRun {
        start,
        end,
        first_cell,
        end_cell,
        first_glyph,
        end_glyph,
    } = run;
    if !text.is_empty() {
        text.push(' ')?;
    }
    write!(
        text,
        "{start}-{end}:{first_cell}-{end_cell}:{first_glyph}-{end_glyph}"
    )
}

fn show(alloc: Global, runs: &[CellRun]) -> Result<String, AllocError> {
    let mut text = String::new(alloc);
    for run in runs {
        push_run(&mut text, *run)?;
    }
    Ok(text)
}

fn has_runs(rt: &impl Abort, alloc: Global, row: Row<'_>, want: &str) -> Result<(), Fail> {
    let grid = grid_of(alloc, row)??;
    let runs = show(alloc, grid.runs())?;
    assert_eq!(rt; runs.as_str(), want);
    Ok(())
}

#[test]
fn lines_have_cells(rt: HostRuntime) -> Result<(), Fail> {
    let alloc = rt.alloc();
    let rows = [
        ("ab", [0, 1].as_slice(), "0-1:0-1:0-1 1-2:1-2:1-2"),
        // a Chinese character takes two cells
        (
            "a\u{6F22}b",
            &[0, 1, 4],
            "0-1:0-1:0-1 1-4:1-3:1-2 4-5:3-4:2-3",
        ),
        // a ligature of the second and the third of four letters
        ("afib", &[0, 1, 3], "0-1:0-1:0-1 1-3:1-3:1-2 3-4:3-4:2-3"),
        // an acute accent in the cluster of its letter
        ("e\u{301}a", &[0, 0, 3], "0-3:0-1:0-2 3-4:1-2:2-3"),
        // Devanagari's vowel I and the letter KA, in the order of the glyphs; then KHA
        (
            "\u{915}\u{93F}\u{916}",
            &[0, 0, 6],
            "0-6:0-2:0-2 6-9:2-3:2-3",
        ),
        // a space of no width in a cluster of its own
        ("a\u{200B}b", &[0, 1, 4], "0-4:0-1:0-2 4-5:1-2:2-3"),
        // an accent with no letter before it
        ("\u{301}a", &[0, 2], "0-2:0-0:0-1 2-3:0-1:1-2"),
        ("", &[], ""),
    ];
    for (text, clusters, want) in rows {
        has_runs(
            &rt,
            alloc,
            make_row(text, Direction::LeftToRight, clusters),
            want,
        )?;
    }
    Ok(())
}

#[test]
fn backward_lines_have_cells(rt: HostRuntime) -> Result<(), Fail> {
    let alloc = rt.alloc();
    // alef and bet
    let letters = make_row("\u{5D0}\u{5D1}", Direction::RightToLeft, &[2, 0]);
    has_runs(&rt, alloc, letters, "0-2:0-1:1-2 2-4:1-2:0-1")?;
    let space = make_row("\u{5D0}\u{200B}\u{5D1}", Direction::RightToLeft, &[5, 2, 0]);
    has_runs(&rt, alloc, space, "0-5:0-1:1-3 5-7:1-2:0-1")?;
    has_runs(&rt, alloc, make_row("", Direction::RightToLeft, &[]), "")
}

#[test]
fn other_lines_are_refused(rt: HostRuntime) -> Result<(), Fail> {
    let alloc = rt.alloc();
    let rows = [
        make_row("ab", Direction::RightToLeft, &[0, 1]),
        make_row("ab", Direction::LeftToRight, &[1, 0]),
        make_row("ab", Direction::LeftToRight, &[1]),
        make_row("ab", Direction::LeftToRight, &[]),
        make_row("", Direction::LeftToRight, &[0]),
        make_row("\u{6F22}", Direction::LeftToRight, &[0, 1]),
    ];
    for row in rows {
        let found = match grid_of(alloc, row)? {
            Ok(_) => None,
            Err(CellFault::OutOfMemory) => return Err(Fail::from(CellFault::OutOfMemory)),
            Err(fault) => Some(fault),
        };
        assert!(rt; found == Some(CellFault::NoSlices));
    }
    Ok(())
}

#[test]
fn runs_are_found_by_cells(rt: HostRuntime) -> Result<(), Fail> {
    let alloc = rt.alloc();
    let grid = grid_of(alloc, make_line("a\u{6F22}b", &[0, 1, 4], &[7, 8, 9]))??;
    let wide = grid.run_at(2).ok_or("no run")?;
    assert!(rt; (wide.start, wide.end) == (1, 4) && grid.run_at(1) == Some(wide));
    assert!(rt; grid.run_at(4).is_none() && grid.width() == 4);
    let glyphs = grid.glyphs_of(wide);
    assert!(rt; glyphs.len() == 1 && glyphs[0].glyph_id == 8);
    assert!(rt; grid.runs_between(2, 3).len() == 1 && grid.runs_between(0, 2).len() == 2);
    assert!(rt; grid.runs_between(2, 2).is_empty() && grid.runs_between(4, 9).is_empty());
    assert!(rt; grid.runs_between(0, 9).len() == 3 && grid.runs_between(3, 1).is_empty());
    Ok(())
}

fn cells(start: usize, end: usize) -> CellRange {
    CellRange { start, end }
}

/// A line that became another one, and the cells to draw again.
fn draws(
    rt: &impl Abort,
    alloc: Global,
    old: Row<'_>,
    new: Row<'_>,
    want: CellRange,
) -> Result<(), Fail> {
    let before = grid_of(alloc, old)??;
    let after = grid_of(alloc, new)??;
    assert!(rt; cells_to_draw(&before, &after) == want);
    Ok(())
}

#[test]
fn edits_are_drawn(rt: HostRuntime) -> Result<(), Fail> {
    let alloc = rt.alloc();
    let old = make_line("abc", &[0, 1, 2], &[1, 2, 3]);
    draws(&rt, alloc, old, old, cells(3, 3))?;
    let middle = make_line("axc", &[0, 1, 2], &[1, 9, 3]);
    draws(&rt, alloc, old, middle, cells(1, 2))?;
    let longer = make_line("abxc", &[0, 1, 2, 3], &[1, 2, 9, 3]);
    draws(&rt, alloc, old, longer, cells(2, 4))?;
    draws(&rt, alloc, longer, old, cells(2, 4))?;
    // two letters instead of a Chinese one
    let wide = make_line("a\u{6F22}b", &[0, 1, 4], &[1, 8, 3]);
    let narrow = make_line("axyb", &[0, 1, 2, 3], &[1, 9, 9, 3]);
    draws(&rt, alloc, wide, narrow, cells(1, 3))?;
    let none = make_line("", &[], &[]);
    draws(&rt, alloc, none, old, cells(0, 3))?;
    draws(&rt, alloc, none, none, cells(0, 0))
}

#[test]
fn backward_lines_end_at_the_right_edge(rt: HostRuntime) -> Result<(), Fail> {
    assert!(rt; columns_of(Direction::LeftToRight, 80, cells(0, 2)) == cells(0, 2));
    assert!(rt; columns_of(Direction::RightToLeft, 80, cells(0, 2)) == cells(78, 80));
    Ok(())
}
