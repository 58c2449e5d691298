//! With ample memory a text is cut into lines, and has carets.
use super::{FONT, answered, close, text_of};
use crate::calls::{kus_font_create, kus_shape};
use crate::lines::{kus_check_lines, kus_cut_lines, kus_font_get_break_premises, kus_get_carets};
use c_lines::types::{kus_caret_t, kus_line_t};
use c_text::handle::Handle;
use std::alloc::{AllocError, Global};
use std::test::Fail;

/// A line: its units, its width, and its glyphs, if they are the text's own.
type Row = (usize, usize, i64, usize, usize, bool);

/// What a cell holds before a call.
const UNWRITTEN: Row = (99, 99, 99, 99, 99, true);

const LINE: kus_line_t = kus_line_t {
    start: 99,
    end: 99,
    width: 99,
    first_glyph: 99,
    end_glyph: 99,
    is_own: true,
};

const CARET: kus_caret_t = kus_caret_t {
    index: 99,
    position: 99,
};

fn row_of(line: kus_line_t) -> Row {
    let (units, glyphs) = ((line.start, line.end), (line.first_glyph, line.end_glyph));
    (
        units.0,
        units.1,
        line.width,
        glyphs.0,
        glyphs.1,
        line.is_own,
    )
}

/// Whether cutting the text of four units by breaks and widths gives a status, and as many lines as are wanted, of which two
/// are written.
fn is_cut(
    alloc: Global,
    font: &mut Handle,
    breaks: &[usize],
    widths: (i64, i64),
    status: u32,
    want: &[Row],
) -> Result<bool, AllocError> {
    let (mut lines, mut count) = ([LINE; 2], 77);
    let given = kus_cut_lines(
        alloc, font, 4, breaks, widths.0, widths.1, &mut lines, &mut count,
    );
    if answered(given)? != status || count != want.len() {
        return Ok(false);
    }
    for k in 0..2 {
        if row_of(lines[k]) != want.get(k).copied().unwrap_or(UNWRITTEN) {
            return Ok(false);
        }
    }
    Ok(true)
}

/// Whether the text of `end` units has carets at stops, of which five are written.
fn has_carets(
    alloc: Global,
    font: &mut Handle,
    end: usize,
    stops: &[usize],
    status: u32,
    want: &[(usize, i64)],
) -> Result<bool, AllocError> {
    let (mut carets, mut count) = ([CARET; 5], 77);
    let given = kus_get_carets(alloc, font, end, stops, &mut carets, &mut count);
    if answered(given)? != status || count != want.len() {
        return Ok(false);
    }
    for k in 0..5 {
        let caret = (carets[k].index, carets[k].position);
        if caret != want.get(k).copied().unwrap_or((99, 99)) {
            return Ok(false);
        }
    }
    Ok(true)
}

/// Makes a font, and shapes a text of an a, a ligature of f and i, and a b.
fn is_ready(alloc: Global, font: &mut Handle, direction: u32) -> Result<bool, AllocError> {
    let status = kus_font_create(alloc, font, b"{}", FONT.as_bytes());
    let text = text_of(b"afib", direction, &[]);
    let mut count = 0;
    let shaped = kus_shape(alloc, font, &text, &mut [], &mut [], &mut count);
    Ok(answered(status)? == 0 && answered(shaped)? == 0 && count == 3)
}

fn text_has_lines(alloc: Global, font: &mut Handle) -> Result<bool, AllocError> {
    let none = is_cut(alloc, font, &[], (0, 0), 16, &[])?;
    let ready = is_ready(alloc, font, 4)?;
    // a break inside the ligature has 500 + 520 before it
    let own = [(0, 3, 1020, 0, 2, true), (3, 4, 600, 2, 3, true)];
    let again = [(0, 2, 1020, 0, 0, false), (2, 4, 600, 0, 0, false)];
    let three = [
        (0, 2, 1020, 0, 0, false),
        (2, 3, 0, 0, 0, false),
        (3, 4, 600, 2, 3, true),
    ];
    Ok(
        none && ready
            && is_cut(alloc, font, &[2, 3], (1020, 599), 0, &own)?
            && is_cut(alloc, font, &[2, 3], (1019, 600), 0, &again)?
            && is_cut(alloc, font, &[2, 3, 4], (1019, 599), 0, &three)?
            && is_cut(alloc, font, &[5], (1, 1), 32, &[])?,
    )
}

#[test]
fn texts_have_lines(rt: HostRuntime) -> Result<(), Fail> {
    let mut font = Handle::empty(rt.alloc());
    let holds = text_has_lines(rt.alloc(), &mut font);
    close(font);
    assert!(rt; holds?);
    Ok(())
}

/// Whether checking three lines of a text gives a status, and leaves those that are wanted their glyphs. Before it each has
/// some, and units of four bytes: two, one, one.
fn are_checked(
    alloc: Global,
    font: &mut Handle,
    premises: u32,
    text: &[u8],
    status: u32,
    want: [bool; 3],
) -> Result<bool, AllocError> {
    let mut lines = [LINE; 3];
    let ends = [0, 2, 3, 4];
    for k in 0..3 {
        lines[k].start = ends[k];
        lines[k].end = ends[k + 1];
    }
    let text = text_of(text, 4, &[]);
    let given = kus_check_lines(alloc, font, premises, &text, &mut lines);
    let left = lines[0].is_own == want[0]
        && lines[1].is_own == want[1]
        && lines[2].is_own == want[2];
    Ok(answered(given)? == status && left && (lines[0].end_glyph == 99) == want[0])
}

/// Latin letters alone have lines of their own, also with a mark after the first letter of each line, and none where one line
/// has a mark, under premises that hold.
fn text_has_checked_lines(alloc: Global, font: &mut Handle) -> Result<bool, AllocError> {
    let untold = kus_font_get_break_premises(alloc, font) == 0;
    let none = are_checked(alloc, font, 15, b"afib", 16, [true, true, true])?;
    let ready = is_ready(alloc, font, 4)?;
    let premises = kus_font_get_break_premises(alloc, font);
    Ok(
        untold
            && none
            && ready
            && premises == 15
            && are_checked(alloc, font, premises, b"afib", 0, [true, true, true])?
            && are_checked(alloc, font, 0, b"afib", 0, [false, false, false])?
            && are_checked(
                alloc,
                font,
                premises,
                b"a\xCD\x81b",
                0,
                [false, false, false],
            )?
            && are_checked(alloc, font, premises, b"\xFF", 10, [true, true, true])?,
    )
}

#[test]
fn texts_have_checked_lines(rt: HostRuntime) -> Result<(), Fail> {
    let mut font = Handle::empty(rt.alloc());
    let holds = text_has_checked_lines(rt.alloc(), &mut font);
    close(font);
    assert!(rt; holds?);
    Ok(())
}

fn text_has_carets(alloc: Global, font: &mut Handle) -> Result<bool, AllocError> {
    let none = has_carets(alloc, font, 4, &[], 16, &[])?;
    let ready = is_ready(alloc, font, 4)?;
    let edges = [(0, 0), (1, 500), (3, 1020), (4, 1620)];
    // half of the ligature's 520
    let stops = [(0, 0), (1, 500), (2, 760), (3, 1020), (4, 1620)];
    Ok(
        none && ready
            && has_carets(alloc, font, 4, &[], 0, &edges)?
            && has_carets(alloc, font, 4, &[1, 2, 3], 0, &stops)?
            && has_carets(alloc, font, 4, &[2, 2], 33, &[])?
            && has_carets(alloc, font, 3, &[], 18, &[])?,
    )
}

#[test]
fn texts_have_carets(rt: HostRuntime) -> Result<(), Fail> {
    let mut font = Handle::empty(rt.alloc());
    let holds = text_has_carets(rt.alloc(), &mut font);
    close(font);
    assert!(rt; holds?);
    Ok(())
}

fn backward_text_has_both(alloc: Global, font: &mut Handle) -> Result<bool, AllocError> {
    // from right to left b, i, f and a, of which f and i make no ligature: their order is turned before
    let status = kus_font_create(alloc, font, b"{}", FONT.as_bytes());
    let text = text_of(b"afib", 5, &[]);
    let mut count = 0;
    let shaped = kus_shape(alloc, font, &text, &mut [], &mut [], &mut count);
    let lines = [(0, 3, 1050, 1, 4, true), (3, 4, 600, 0, 1, true)];
    let carets = [(0, 1650), (1, 1150), (2, 850), (3, 600), (4, 0)];
    Ok(
        answered(status)? == 0
            && answered(shaped)? == 0
            && is_cut(alloc, font, &[3], (1050, 600), 0, &lines)?
            && has_carets(alloc, font, 4, &[], 0, &carets)?,
    )
}

#[test]
fn backward_texts_have_lines_and_carets(rt: HostRuntime) -> Result<(), Fail> {
    let mut font = Handle::empty(rt.alloc());
    let holds = backward_text_has_both(rt.alloc(), &mut font);
    close(font);
    assert!(rt; holds?);
    Ok(())
}
