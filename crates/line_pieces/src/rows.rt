//! Lines of a few paragraphs by hand: clusters, advances and flags of glyphs, and what they are cut into.
use crate::{
    FillFault, FilledLine, Line, LineFault, LineGlyphs, ShapesLines, Widths, cut_lines,
    cut_unit_lines, fill_lines,
};
use kuspveli::{Direction, GlyphBuffer, GlyphInfo, GlyphPosition, UnicodeBuffer};
use std::alloc::{AllocError, Global};
use std::process::Abort;
use std::test::Fail;

/// A text of a direction, with the clusters and advances of its glyphs, and those that are unsafe to break before.
#[derive(Clone, Copy)]
pub(crate) struct Row<'a> {
    text: &'a str,
    pub(crate) direction: Direction,
    clusters: &'a [u32],
    advances: &'a [i32],
    is_unsafe: &'a [bool],
}

pub(crate) const fn make_row<'a>(
    text: &'a str,
    direction: Direction,
    clusters: &'a [u32],
    advances: &'a [i32],
    is_unsafe: &'a [bool],
) -> Row<'a> {
    Row {
        text,
        direction,
        clusters,
        advances,
        is_unsafe,
    }
}

/// Five letters of a Latin font.
const FORWARD: Row<'static> = Row {
    text: "ab cd",
    direction: Direction::LeftToRight,
    clusters: &[0, 1, 2, 3, 4],
    advances: &[500, 600, 250, 500, 600],
    is_unsafe: &[],
};

/// Four letters, the third of which is unsafe to break before.
const KERNED: Row<'static> = Row {
    text: "abcd",
    direction: Direction::LeftToRight,
    clusters: &[0, 1, 2, 3],
    advances: &[500, 500, 500, 500],
    is_unsafe: &[false, false, true, false],
};

/// A ligature of the second and the third of four letters.
const LIGATURE: Row<'static> = Row {
    text: "afib",
    direction: Direction::LeftToRight,
    clusters: &[0, 1, 3],
    advances: &[500, 520, 600],
    is_unsafe: &[],
};

fn set_advances(positions: &mut [GlyphPosition], advances: &[i32], is_horizontal: bool) {
    for (position, advance) in positions.iter_mut().zip(advances) {
        if is_horizontal {
            position.x_advance = *advance;
        } else {
            position.y_advance = *advance;
        }
    }
}

fn set_flags(infos: &mut [GlyphInfo], flags: &[bool]) {
    for (info, flag) in infos.iter_mut().zip(flags) {
        if *flag {
            info.mask = 1;
        }
    }
}

pub(crate) fn glyphs_of(alloc: Global, row: Row<'_>) -> Result<GlyphBuffer, AllocError> {
    let mut text = UnicodeBuffer::new(alloc);
    for cluster in row.clusters {
        let _added = text.add('x', *cluster)?;
    }
    let mut buffer = text.into_buffer();
    set_advances(
        buffer.pos_slice_mut(),
        row.advances,
        row.direction.is_horizontal(),
    );
    set_flags(buffer.info_slice_mut(), row.is_unsafe);
    Ok(GlyphBuffer::from_buffer(buffer))
}

/// A line's bytes, its width, and its glyphs.
fn push_line(text: &mut String, line: Line) -> Result<(), AllocError> {
    let Line {
        start,
        end,
        width,
        ..
    } = line;
    if !text.is_empty() {
        text.push(' ')?;
    }
    write!(text, "{start}-{end}@{width}")?;
    let Some(glyphs) = line.glyphs else {
        return Ok(());
    };
    let (first, last) = (glyphs.start, glyphs.end);
    write!(text, "={first}-{last}")
}

fn cut(
    alloc: Global,
    row: Row<'_>,
    breaks: &[usize],
    width: i64,
) -> Result<Result<Vec<Line>, LineFault>, AllocError> {
    let glyphs = glyphs_of(alloc, row)?;
    Ok(cut_lines(alloc, &glyphs, row.text, row.direction, breaks, width))
}

fn has_lines(
    rt: &impl Abort,
    alloc: Global,
    row: Row<'_>,
    breaks: &[usize],
    width: i64,
    want: &str,
) -> Result<(), Fail> {
    let lines = cut(alloc, row, breaks, width)??;
    are_shown(rt, alloc, &lines, want)
}

fn are_shown(rt: &impl Abort, alloc: Global, lines: &[Line], want: &str) -> Result<(), Fail> {
    let mut text = String::new(alloc);
    for line in lines {
        push_line(&mut text, *line)?;
    }
    assert_eq!(rt; text.as_str(), want);
    Ok(())
}

/// The lines of a text by units, as many as it has bytes.
fn cut_units(
    alloc: Global,
    row: Row<'_>,
    breaks: &[usize],
    widths: Widths,
) -> Result<Result<Vec<Line>, LineFault>, AllocError> {
    let glyphs = glyphs_of(alloc, row)?;
    let end = row.text.len();
    Ok(cut_unit_lines(alloc, &glyphs, end, row.direction, breaks, widths))
}

fn has_unit_lines(
    rt: &impl Abort,
    alloc: Global,
    row: Row<'_>,
    breaks: &[usize],
    widths: Widths,
    want: &str,
) -> Result<(), Fail> {
    let lines = cut_units(alloc, row, breaks, widths)??;
    are_shown(rt, alloc, &lines, want)
}

fn has_unit_fault(
    rt: &impl Abort,
    alloc: Global,
    row: Row<'_>,
    breaks: &[usize],
    want: LineFault,
) -> Result<(), Fail> {
    let found = match cut_units(alloc, row, breaks, widths(1000, 1000))? {
        Ok(_) => None,
        Err(LineFault::OutOfMemory) => return Err(Fail::from(LineFault::OutOfMemory)),
        Err(fault) => Some(fault),
    };
    assert!(rt; found == Some(want));
    Ok(())
}

const fn widths(first: i64, rest: i64) -> Widths {
    Widths { first, rest }
}

fn has_fault(
    rt: &impl Abort,
    alloc: Global,
    row: Row<'_>,
    breaks: &[usize],
    want: LineFault,
) -> Result<(), Fail> {
    let found = match cut(alloc, row, breaks, 1000)? {
        Ok(_) => None,
        Err(LineFault::OutOfMemory) => return Err(Fail::from(LineFault::OutOfMemory)),
        Err(fault) => Some(fault),
    };
    assert!(rt; found == Some(want));
    Ok(())
}

/// The bytes of a line, and the advances of the glyphs that shaping its text again gives.
type Again<'a> = (usize, usize, &'a [i32]);

/// Shapes the lines of some rows, each glyph a cluster of the line's own text.
#[derive(Clone, Copy)]
struct Shaper<'a> {
    alloc: Global,
    direction: Direction,
    rows: &'a [Again<'a>],
}

/// Why a line of these tests isn't shaped.
#[derive(Clone, Copy, PartialEq, Eq, Debug)]
enum NotShaped {
    OutOfMemory,
    NoRow,
}

impl From<AllocError> for NotShaped {
    fn from(_error: AllocError) -> NotShaped {
        NotShaped::OutOfMemory
    }
}

impl ShapesLines for Shaper<'_> {
    type Fault = NotShaped;

    ghost IsShapedLine = { λ shaper from to glyphs. Unit {0} };

    ghost IsRefusedLine = { λ shaper from to fault. Unit {0} };

    fn shape_line(&self, start: usize, end: usize) -> Result<GlyphBuffer, NotShaped> {
        for (from, to, advances) in self.rows {
            if *from == start && *to == end {
                let clusters = &[0, 1, 2, 3, 4][..advances.len().min(5)];
                let row = make_row("", self.direction, clusters, advances, &[]);
                return Ok(glyphs_of(self.alloc, row)?);
            }
        }
        Err(NotShaped::NoRow)
    }
}

/// A filled line's bytes, its width, and the indices of its own glyphs or the number of those shaped again.
fn push_filled(text: &mut String, line: &FilledLine) -> Result<(), AllocError> {
    let (start, end, width) = (line.start, line.end, line.width);
    if !text.is_empty() {
        text.push(' ')?;
    }
    write!(text, "{start}-{end}@{width}")?;
    match &line.glyphs {
        LineGlyphs::Own(range) => {
            let (first, last) = (range.start, range.end);
            write!(text, "={first}-{last}")
        }
        LineGlyphs::Shaped(glyphs) => {
            let count = glyphs.len();
            write!(text, "~{count}")
        }
    }
}

fn fill(
    alloc: Global,
    row: Row<'_>,
    breaks: &[usize],
    width: i64,
    again: &[Again<'_>],
) -> Result<Result<Vec<FilledLine>, FillFault<NotShaped>>, AllocError> {
    let glyphs = glyphs_of(alloc, row)?;
    let shaper = Shaper {
        alloc,
        direction: row.direction,
        rows: again,
    };
    Ok(fill_lines(
        alloc,
        &shaper,
        &glyphs,
        row.text,
        row.direction,
        breaks,
        width,
    ))
}

fn has_filled(
    rt: &impl Abort,
    alloc: Global,
    row: Row<'_>,
    breaks: &[usize],
    width: i64,
    again: &[Again<'_>],
    want: &str,
) -> Result<(), Fail> {
    let mut text = String::new(alloc);
    match fill(alloc, row, breaks, width, again)? {
        Ok(lines) => {
            for line in &lines {
                push_filled(&mut text, line)?;
            }
        }
        Err(FillFault::Cut(LineFault::OutOfMemory) | FillFault::Shape(NotShaped::OutOfMemory)) => {
            return Err(Fail::from(LineFault::OutOfMemory));
        }
        Err(FillFault::Cut(fault)) => write!(text, "{fault}")?,
        Err(FillFault::Shape(NotShaped::NoRow)) => text.push_str("not shaped")?,
        Err(FillFault::TooManyGlyphs) => text.push_str("a line of too many glyphs")?,
    }
    assert_eq!(rt; text.as_str(), want);
    Ok(())
}

#[test]
fn lines_are_cut_by_what_they_have(rt: HostRuntime) -> Result<(), Fail> {
    let alloc = rt.alloc();
    // lines between safe breaks aren't shaped again, nor is a line with its next piece up to a safe break
    let both = "0-3@1350=0-3 3-5@1100=3-5";
    has_filled(&rt, alloc, FORWARD, &[3], 1400, &[], both)?;
    has_filled(&rt, alloc, FORWARD, &[3, 5], 100, &[], both)?;
    has_filled(&rt, alloc, FORWARD, &[3], 2450, &[], "0-5@2450=0-5")?;
    let empty = make_row("", Direction::LeftToRight, &[], &[], &[]);
    has_filled(&rt, alloc, empty, &[], 1000, &[], "")?;
    // the paragraph has 1000 units for two letters, which shaped again are wider than the line
    let wider: [Again<'_>; 1] = [(0, 2, &[500, 510])];
    let three = "0-1@500=0-1 1-3@1000=1-3 3-4@500=3-4";
    has_filled(&rt, alloc, KERNED, &[1, 2, 3], 1000, &wider, three)?;
    // or as wide as the line
    let fits: [Again<'_>; 2] = [(0, 2, &[500, 500]), (2, 4, &[400, 500])];
    let two = "0-2@1000~2 2-4@900~2";
    has_filled(&rt, alloc, KERNED, &[2], 1000, &fits, two)?;
    has_filled(&rt, alloc, KERNED, &[2], 1999, &fits, two)
}

#[test]
fn narrower_lines_take_more(rt: HostRuntime) -> Result<(), Fail> {
    let alloc = rt.alloc();
    let row = make_row(
        "abcd",
        Direction::LeftToRight,
        &[0, 1, 2, 3],
        &[500, 500, 500, 500],
        &[false, false, true, true],
    );
    // three letters have 1500 units in the paragraph, and 1380 as a line; all four have 2000
    let again: [Again<'_>; 4] = [
        (0, 2, &[450, 450]),
        (0, 3, &[450, 450, 480]),
        (3, 4, &[510]),
        (2, 4, &[500, 510]),
    ];
    has_filled(
        &rt,
        alloc,
        row,
        &[2, 3],
        1400,
        &again,
        "0-3@1380~3 3-4@510~1",
    )?;
    has_filled(
        &rt,
        alloc,
        row,
        &[2, 3],
        1379,
        &again,
        "0-2@900~2 2-4@1010~2",
    )
}

#[test]
fn one_piece_may_be_wider(rt: HostRuntime) -> Result<(), Fail> {
    let alloc = rt.alloc();
    let one: [Again<'_>; 2] = [(0, 2, &[500, 510]), (2, 4, &[500, 500])];
    has_filled(&rt, alloc, KERNED, &[2], 900, &one, "0-2@1010~2 2-4@1000~2")?;
    // two pieces are too wide, and so is the first alone
    let row = make_row(
        "abcd",
        Direction::LeftToRight,
        &[0, 1, 2, 3],
        &[500, 500, 500, 500],
        &[false, true, true, false],
    );
    let again: [Again<'_>; 5] = [
        (0, 1, &[1020]),
        (0, 2, &[500, 510]),
        (1, 2, &[500]),
        (1, 4, &[500, 500, 501]),
        (2, 4, &[500, 500]),
    ];
    let three = "0-1@1020~1 1-2@500~1 2-4@1000~2";
    has_filled(&rt, alloc, row, &[1, 2], 1000, &again, three)
}

#[test]
fn other_directions_are_filled(rt: HostRuntime) -> Result<(), Fail> {
    let alloc = rt.alloc();
    let backward = make_row(
        "ab cd",
        Direction::RightToLeft,
        &[4, 3, 2, 1, 0],
        &[600, 500, 250, 600, 500],
        &[false, true],
    );
    let again: [Again<'_>; 2] = [(0, 3, &[250, 610, 500]), (3, 5, &[600, 510])];
    let two = "0-3@1360~3 3-5@1110~2";
    has_filled(&rt, alloc, backward, &[3], 1400, &again, two)?;
    has_filled(&rt, alloc, backward, &[3], 2450, &[], "0-5@2450=0-5")?;
    // downward, where advances are below zero
    let downward = make_row(
        "ab",
        Direction::TopToBottom,
        &[0, 1],
        &[-1000, -900],
        &[false, true],
    );
    let again: [Again<'_>; 2] = [(0, 1, &[-990]), (1, 2, &[-900])];
    has_filled(
        &rt,
        alloc,
        downward,
        &[1],
        1000,
        &again,
        "0-1@990~1 1-2@900~1",
    )
}

#[test]
fn lines_that_are_not_filled(rt: HostRuntime) -> Result<(), Fail> {
    let alloc = rt.alloc();
    let some: [Again<'_>; 1] = [(0, 2, &[500, 510])];
    has_filled(&rt, alloc, KERNED, &[2], 1000, &some, "not shaped")?;
    has_filled(&rt, alloc, KERNED, &[2], 1000, &[], "not shaped")?;
    has_filled(&rt, alloc, KERNED, &[2, 2], 1000, &some, "invalid breaks")?;
    let turned = make_row("ab", Direction::LeftToRight, &[1, 0], &[500, 600], &[]);
    has_filled(&rt, alloc, turned, &[0], 1000, &[], "clusters out of order")
}

#[test]
fn forward_lines_are_filled(rt: HostRuntime) -> Result<(), Fail> {
    let alloc = rt.alloc();
    // the piece "ab " has 1350 units, "cd" has 1100
    let both = "0-3@1350=0-3 3-5@1100=3-5";
    has_lines(&rt, alloc, FORWARD, &[3], 1400, both)?;
    has_lines(&rt, alloc, FORWARD, &[3], 2449, both)?;
    has_lines(&rt, alloc, FORWARD, &[3], 2450, "0-5@2450=0-5")?;
    has_lines(&rt, alloc, FORWARD, &[], 1400, "0-5@2450=0-5")?;
    // the end of the text is a break with or without being handed in
    has_lines(&rt, alloc, FORWARD, &[3, 5], 1400, both)?;
    // each piece is wider than the width
    has_lines(&rt, alloc, FORWARD, &[3], 100, both)?;
    has_lines(&rt, alloc, FORWARD, &[3], -1, both)?;
    // two pieces in the first line, and one in the second: 500 + 600, 250 + 500, 600
    let three = "0-2@1100=0-2 2-4@750=2-4 4-5@600=4-5";
    has_lines(&rt, alloc, FORWARD, &[1, 2, 3, 4], 1100, three)?;
    let empty = make_row("", Direction::LeftToRight, &[], &[], &[]);
    has_lines(&rt, alloc, empty, &[], 1000, "")
}

#[test]
fn the_first_line_has_its_own_width(rt: HostRuntime) -> Result<(), Fail> {
    let alloc = rt.alloc();
    let both = "0-3@1350=0-3 3-5@1100=3-5";
    let whole = "0-5@2450=0-5";
    has_unit_lines(&rt, alloc, FORWARD, &[3], widths(2450, 100), whole)?;
    has_unit_lines(&rt, alloc, FORWARD, &[3], widths(2449, 9999), both)?;
    has_unit_lines(&rt, alloc, FORWARD, &[3], widths(-1, 9999), both)?;
    // 500, then 600 + 250 + 500, then 600
    let three = "0-1@500=0-1 1-4@1350=1-4 4-5@600=4-5";
    let breaks = [1, 2, 3, 4, 5];
    has_unit_lines(&rt, alloc, FORWARD, &breaks, widths(500, 1400), three)?;
    has_unit_fault(&rt, alloc, FORWARD, &[0], LineFault::InvalidBreaks)?;
    has_unit_fault(&rt, alloc, FORWARD, &[3, 3], LineFault::InvalidBreaks)?;
    has_unit_fault(&rt, alloc, FORWARD, &[6], LineFault::InvalidBreaks)?;
    let turned = make_row("ab", Direction::LeftToRight, &[1, 0], &[500, 600], &[]);
    has_unit_fault(&rt, alloc, turned, &[1], LineFault::ClustersOutOfOrder)
}

#[test]
fn unsafe_lines_are_to_be_shaped_again(rt: HostRuntime) -> Result<(), Fail> {
    let alloc = rt.alloc();
    // a break inside a ligature, and one after it
    has_lines(&rt, alloc, LIGATURE, &[2], 1100, "0-2@1020 2-4@600")?;
    has_lines(&rt, alloc, LIGATURE, &[3], 1100, "0-3@1020=0-2 3-4@600=2-3")?;
    has_lines(
        &rt,
        alloc,
        LIGATURE,
        &[2, 3],
        1100,
        "0-3@1020=0-2 3-4@600=2-3",
    )?;
    // a flag on a break, and on one glyph of two of a cluster
    let kerned = make_row(
        "abc",
        Direction::LeftToRight,
        &[0, 1, 2],
        &[500, 600, 500],
        &[false, true, false],
    );
    has_lines(
        &rt,
        alloc,
        kerned,
        &[1, 2],
        600,
        "0-1@500 1-2@600 2-3@500=2-3",
    )?;
    let marked = make_row(
        "a\u{E1}",
        Direction::LeftToRight,
        &[0, 1, 1],
        &[500, 600, 0],
        &[false, false, true],
    );
    has_lines(&rt, alloc, marked, &[1], 600, "0-1@500 1-3@600")
}

#[test]
fn other_directions_have_lines(rt: HostRuntime) -> Result<(), Fail> {
    let alloc = rt.alloc();
    // backward, where the first line has the last glyphs
    let backward = make_row(
        "ab cd",
        Direction::RightToLeft,
        &[4, 3, 2, 1, 0],
        &[600, 500, 250, 600, 500],
        &[],
    );
    has_lines(
        &rt,
        alloc,
        backward,
        &[3],
        1400,
        "0-3@1350=2-5 3-5@1100=0-2",
    )?;
    has_lines(&rt, alloc, backward, &[3], 2450, "0-5@2450=0-5")?;
    let flagged = make_row(
        "ab cd",
        Direction::RightToLeft,
        &[4, 3, 2, 1, 0],
        &[600, 500, 250, 600, 500],
        &[false, true],
    );
    has_lines(&rt, alloc, flagged, &[3], 1400, "0-3@1350 3-5@1100")?;
    // downward, where advances are below zero
    let downward = make_row("ab", Direction::TopToBottom, &[0, 1], &[-1000, -900], &[]);
    has_lines(&rt, alloc, downward, &[1], 1000, "0-1@1000=0-1 1-2@900=1-2")?;
    has_lines(&rt, alloc, downward, &[1], 1900, "0-2@1900=0-2")?;
    let upward = make_row("ab", Direction::BottomToTop, &[1, 0], &[-900, -1000], &[]);
    has_lines(&rt, alloc, upward, &[1], 1000, "0-1@1000=1-2 1-2@900=0-1")
}

#[test]
fn other_breaks_and_clusters_are_refused(rt: HostRuntime) -> Result<(), Fail> {
    let alloc = rt.alloc();
    has_fault(&rt, alloc, FORWARD, &[0], LineFault::InvalidBreaks)?;
    has_fault(&rt, alloc, FORWARD, &[3, 3], LineFault::InvalidBreaks)?;
    has_fault(&rt, alloc, FORWARD, &[3, 1], LineFault::InvalidBreaks)?;
    has_fault(&rt, alloc, FORWARD, &[6], LineFault::InvalidBreaks)?;
    let accented = make_row("\u{E1}", Direction::LeftToRight, &[0], &[500], &[]);
    has_fault(&rt, alloc, accented, &[1], LineFault::InvalidBreaks)?;
    let turned = make_row("ab", Direction::LeftToRight, &[1, 0], &[500, 600], &[]);
    has_fault(&rt, alloc, turned, &[1], LineFault::ClustersOutOfOrder)?;
    let forward = make_row("ab", Direction::RightToLeft, &[0, 1], &[500, 600], &[]);
    has_fault(&rt, alloc, forward, &[0], LineFault::ClustersOutOfOrder)
}
