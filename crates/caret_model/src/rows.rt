//! Carets of a few lines by hand: clusters and advances of glyphs, and what a model of them answers.
use crate::{Caret, CaretFault, CaretModel};
use kuspveli::{Direction, GlyphBuffer, GlyphPosition, UnicodeBuffer};
use std::alloc::{AllocError, Global};
use std::process::Abort;
use std::test::Fail;

/// A text of a direction, with the clusters and advances of its glyphs.
#[derive(Clone, Copy)]
struct Row<'a> {
    text: &'a str,
    direction: Direction,
    clusters: &'a [u32],
    advances: &'a [i32],
}

fn set_advances(positions: &mut [GlyphPosition], advances: &[i32], is_horizontal: bool) {
    for (position, advance) in positions.iter_mut().zip(advances) {
        if is_horizontal {
            position.x_advance = *advance;
        } else {
            position.y_advance = *advance;
        }
    }
}

fn glyphs_of(alloc: Global, row: Row<'_>) -> Result<GlyphBuffer, AllocError> {
    let mut text = UnicodeBuffer::new(alloc);
    for cluster in row.clusters {
        let _added = text.add('x', *cluster)?;
    }
    let mut buffer = text.into_buffer();
    set_advances(
        buffer.pos_slice_mut(),
        row.advances,
        row.direction.is_horizontal(),
    );
    Ok(GlyphBuffer::from_buffer(buffer))
}

fn model_of(alloc: Global, row: Row<'_>) -> Result<Result<CaretModel, CaretFault>, AllocError> {
    let glyphs = glyphs_of(alloc, row)?;
    Ok(CaretModel::new(alloc, &glyphs, row.text, row.direction))
}

/// The model of a text by units, as many as it has bytes.
fn unit_model(alloc: Global, row: Row<'_>) -> Result<Result<CaretModel, CaretFault>, AllocError> {
    let glyphs = glyphs_of(alloc, row)?;
    Ok(CaretModel::of_units(alloc, &glyphs, row.text.len(), row.direction))
}

fn push_caret(text: &mut String, caret: Caret) -> Result<(), AllocError> {
    let Caret { byte, position } = caret;
    if !text.is_empty() {
        text.push(' ')?;
    }
    write!(text, "{byte}@{position}")
}

/// Each caret with its byte and its position.
fn show(alloc: Global, carets: &[Caret]) -> Result<String, AllocError> {
    let mut text = String::new(alloc);
    for caret in carets {
        push_caret(&mut text, *caret)?;
    }
    Ok(text)
}

/// The carets of a line by bytes, and by as many units.
fn has_carets(rt: &impl Abort, alloc: Global, row: Row<'_>, want: &str) -> Result<(), Fail> {
    let model = model_of(alloc, row)??;
    let carets = show(alloc, model.carets())?;
    assert_eq!(rt; carets.as_str(), want);
    let units = unit_model(alloc, row)??;
    let unit_carets = show(alloc, units.carets())?;
    assert_eq!(rt; unit_carets.as_str(), want);
    Ok(())
}

fn has_stops(
    rt: &impl Abort,
    alloc: Global,
    row: Row<'_>,
    stops: &[usize],
    want: &str,
) -> Result<(), Fail> {
    let model = unit_model(alloc, row)??;
    let found = model.carets_at_stops(alloc, stops)?;
    let carets = show(alloc, &found)?;
    assert_eq!(rt; carets.as_str(), want);
    Ok(())
}

fn refuses_stops(
    rt: &impl Abort,
    alloc: Global,
    row: Row<'_>,
    stops: &[usize],
) -> Result<(), Fail> {
    let model = unit_model(alloc, row)??;
    let found = match model.carets_at_stops(alloc, stops) {
        Ok(_) => None,
        Err(CaretFault::OutOfMemory) => return Err(Fail::from(CaretFault::OutOfMemory)),
        Err(fault) => Some(fault),
    };
    assert!(rt; found == Some(CaretFault::InvalidStops));
    Ok(())
}

const fn make_row<'a>(
    text: &'a str,
    direction: Direction,
    clusters: &'a [u32],
    advances: &'a [i32],
) -> Row<'a> {
    Row {
        text,
        direction,
        clusters,
        advances,
    }
}

#[test]
fn lines_have_carets(rt: HostRuntime) -> Result<(), Fail> {
    let alloc = rt.alloc();
    let rows = [
        // two letters, a ligature of the last two of three, and two glyphs of one character
        (
            make_row("ab", Direction::LeftToRight, &[0, 1], &[500, 600]),
            "0@0 1@500 2@1100",
        ),
        (
            make_row("afi", Direction::LeftToRight, &[0, 1], &[500, 520]),
            "0@0 1@500 3@1020",
        ),
        (
            make_row(
                "\u{E1}b",
                Direction::LeftToRight,
                &[0, 0, 2],
                &[500, 0, 600],
            ),
            "0@0 2@500 3@1100",
        ),
        // the same from right to left, and one slice, which may run either way
        (
            make_row("ab", Direction::RightToLeft, &[1, 0], &[600, 500]),
            "2@0 1@600 0@1100",
        ),
        (
            make_row("afi", Direction::RightToLeft, &[1, 0], &[520, 500]),
            "3@0 1@520 0@1020",
        ),
        (
            make_row("a", Direction::RightToLeft, &[0], &[500]),
            "1@0 0@500",
        ),
        (
            make_row("a", Direction::LeftToRight, &[0], &[500]),
            "0@0 1@500",
        ),
        // downward, where advances are below zero
        (
            make_row("ab", Direction::TopToBottom, &[0, 1], &[-1000, -900]),
            "0@0 1@-1000 2@-1900",
        ),
        (
            make_row("ab", Direction::BottomToTop, &[1, 0], &[-1000, -900]),
            "2@0 1@-1000 0@-1900",
        ),
    ];
    for (row, want) in rows {
        has_carets(&rt, alloc, row, want)?;
    }
    Ok(())
}

#[test]
fn stops_divide_clusters(rt: HostRuntime) -> Result<(), Fail> {
    let alloc = rt.alloc();
    let forward = make_row("afi", Direction::LeftToRight, &[0, 1], &[500, 520]);
    has_stops(&rt, alloc, forward, &[], "0@0 1@500 3@1020")?;
    has_stops(&rt, alloc, forward, &[2], "0@0 1@500 2@760 3@1020")?;
    has_stops(&rt, alloc, forward, &[1, 2, 3], "0@0 1@500 2@760 3@1020")?;
    let backward = make_row("afi", Direction::RightToLeft, &[1, 0], &[520, 500]);
    has_stops(&rt, alloc, backward, &[1, 2], "0@1020 1@520 2@260 3@0")?;
    // 1000 by three: 334, 333, 333
    let thirds = make_row("ffi", Direction::LeftToRight, &[0], &[1000]);
    has_stops(&rt, alloc, thirds, &[1, 2], "0@0 1@334 2@667 3@1000")?;
    let back_thirds = make_row("ffi", Direction::RightToLeft, &[0], &[1000]);
    has_stops(&rt, alloc, back_thirds, &[1, 2], "0@1000 1@666 2@333 3@0")?;
    let down = make_row("ffi", Direction::TopToBottom, &[0], &[-900]);
    has_stops(&rt, alloc, down, &[1, 2], "0@0 1@-300 2@-600 3@-900")
}

#[test]
fn other_stops_are_refused(rt: HostRuntime) -> Result<(), Fail> {
    let alloc = rt.alloc();
    let row = make_row("afi", Direction::LeftToRight, &[0, 1], &[500, 520]);
    refuses_stops(&rt, alloc, row, &[0])?;
    refuses_stops(&rt, alloc, row, &[2, 2])?;
    refuses_stops(&rt, alloc, row, &[2, 1])?;
    refuses_stops(&rt, alloc, row, &[4])
}

#[test]
fn other_lines_are_refused(rt: HostRuntime) -> Result<(), Fail> {
    let alloc = rt.alloc();
    let rows = [
        make_row("ab", Direction::RightToLeft, &[0, 1], &[500, 600]),
        make_row("ab", Direction::LeftToRight, &[1, 0], &[500, 600]),
        make_row("ab", Direction::LeftToRight, &[1], &[500]),
        make_row("", Direction::LeftToRight, &[], &[]),
    ];
    for row in rows {
        let found = match model_of(alloc, row)? {
            Ok(_) => None,
            Err(CaretFault::OutOfMemory) => return Err(Fail::from(CaretFault::OutOfMemory)),
            Err(fault) => Some(fault),
        };
        assert!(rt; found == Some(CaretFault::NoSlices));
    }
    Ok(())
}

fn caret(byte: usize, position: i64) -> Option<Caret> {
    Some(Caret { byte, position })
}

/// Carets move from left to right along a ligature of the last two of three letters.
fn carets_move(rt: &impl Abort, model: &CaretModel) {
    assert!(rt; model.caret_at(1) == caret(1, 500) && model.caret_at(2).is_none());
    assert!(rt; model.next_visual(1) == caret(3, 1020) && model.next_visual(3).is_none());
    assert!(rt; model.previous_visual(1) == caret(0, 0) && model.previous_visual(0).is_none());
    assert!(rt; model.next_logical(1) == caret(3, 1020) && model.next_logical(3).is_none());
    assert!(rt; model.previous_logical(2) == caret(1, 500) && model.previous_logical(0).is_none());
}

/// The carets that are nearest to positions in the same line.
fn carets_are_nearest(rt: &impl Abort, model: &CaretModel) {
    assert!(rt; Some(model.nearest(-7)) == caret(0, 0) && Some(model.nearest(250)) == caret(0, 0));
    assert!(rt;
        Some(model.nearest(251)) == caret(1, 500) && Some(model.nearest(i64::MAX)) == caret(3, 1020)
    );
}

#[test]
fn carets_move_along_a_line(rt: HostRuntime) -> Result<(), Fail> {
    let line = make_row("afi", Direction::LeftToRight, &[0, 1], &[500, 520]);
    let model = model_of(rt.alloc(), line)??;
    carets_move(&rt, &model);
    carets_are_nearest(&rt, &model);
    Ok(())
}

#[test]
fn carets_move_along_a_backward_line(rt: HostRuntime) -> Result<(), Fail> {
    let line = make_row("afi", Direction::RightToLeft, &[1, 0], &[520, 500]);
    let model = model_of(rt.alloc(), line)??;
    assert!(rt; model.next_visual(3) == caret(1, 520) && model.previous_visual(3).is_none());
    assert!(rt;
        model.next_logical(1) == caret(3, 0) && model.previous_logical(1) == caret(0, 1020)
    );
    assert!(rt; model.next_logical(2) == caret(3, 0) && model.next_visual(2).is_none());
    Ok(())
}

fn slices_are_of_bytes(rt: &impl Abort, model: &CaretModel) -> Result<(), Fail> {
    let slice = model.slice_at(2).ok_or("no slice")?;
    assert!(rt;
        (slice.first_glyph, slice.end_glyph) == (1, 2) && (slice.start, slice.end) == (1, 3)
    );
    assert!(rt; model.slice_at(3).is_none());
    Ok(())
}

fn selections_are_of_bytes(rt: &impl Abort, model: &CaretModel) -> Result<(), Fail> {
    let whole = model.selection(0, 3).ok_or("none")?;
    let first = model.selection(0, 1).ok_or("none")?;
    let second = model.selection(1, 3).ok_or("none")?;
    assert!(rt; (first.start, first.end) == (0, 500) && (second.start, second.end) == (500, 1020));
    assert!(rt; (whole.start, whole.end) == (0, 1020));
    assert!(rt; model.selection(0, 2).is_none() && model.selection(1, 0).is_none());
    Ok(())
}

#[test]
fn slices_and_selections_are_of_bytes(rt: HostRuntime) -> Result<(), Fail> {
    let line = make_row("afi", Direction::LeftToRight, &[0, 1], &[500, 520]);
    let model = model_of(rt.alloc(), line)??;
    slices_are_of_bytes(&rt, &model)?;
    selections_are_of_bytes(&rt, &model)
}
