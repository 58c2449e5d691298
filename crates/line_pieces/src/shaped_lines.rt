//! Lines that are filled with what they have in the end: a line whose text has to be shaped again may be wider or narrower
//! than the paragraph shows it, and is cut by its own width.
ghost use Rattle.std.specs.Prelude.{◌≡◌, ◌≤◌, ◌<◌, ◌+◌, ◌^◌, ◌==◌, ◌&&◌, ◌||◌, ◌++◌, ◌∷◌, [], IfErr, IfOk, OnOk, get_or, int_le, length};
ghost use Rattle.std.specs.List.{All};
ghost use Rattle.kuspveli.specs.shaping_buffer.buffer_core.Sides.{all_glyphs};
ghost use Rattle.line_pieces.specs.Cuts.{IsCountedTo, IsCut, IsMeasured};
ghost use Rattle.line_pieces.specs.FilledLines.{AreFilledLines, FitsWidth, IsFillFaultOf, IsFull, IsTooWide, width_of};
ghost use Rattle.line_pieces.specs.Lines.{CanBeCut, paragraph_of, width_from};
ghost use Rattle.line_pieces.specs.LinesInHand.{AreLinesTo, IsFirstPiece, IsLineFault, IsLineTo, IsPage, IsReached};
ghost use Rattle.line_pieces.specs.LinesInHand.{IsShapeFault, IsShapedTo, IsTaken, own_line, page_of, piece_end};
ghost use Rattle.line_pieces.specs.Steps.{text_steps};

use crate::cuts::{Cut, cut_at, first_cut};
use crate::filling::{Frame, frame_of, glyph_range, stays, width_from};
use crate::lines::{FillFault, FilledLine, LineGlyphs, Widths};
use crate::shapes_lines::ShapesLines;
use crate::steps::advance_along;
use kuspveli::{Direction, GlyphBuffer};
use std::alloc::{AllocError, Global};
use std::mem;

/// A line up to the end of one of its text's pieces.
#[derive(Drop)]
pub struct LineTo {
    pub line: FilledLine,
    /// The index of its last piece.
    pub piece: usize,
}

/// Fills the lines of a paragraph with what they have in the end. `glyphs` is what shaping the whole text along the
/// direction gave, where safe breaks were requested; a line may end at each of `breaks`, which are indices of bytes of the
/// text (those of UAX 14), and at the end of the text. A line whose ends are both safe has the paragraph's glyphs, the text
/// of any other is shaped again by `shaper`. A line takes the pieces between breaks as long as it fits the width, in font
/// units, with the glyphs that it has; none is wider but one of a single piece. `FillFault` says why no lines are filled.
pub fn fill_lines<S: ShapesLines>(
    alloc: Global,
    shaper: &S,
    glyphs: &GlyphBuffer,
    text: &str,
    direction: Direction,
    breaks: &[usize],
    width: i64,
) -> Result<Vec<FilledLine>, FillFault<S::Fault>>
    ensures lines { IfOk result (λ lines. AreFilledLines direction (S.IsShapedLine shaper.now)
        (paragraph_of direction glyphs.now (length text.now) breaks.now width) lines.items) }
    ensures fits { IfOk result (λ lines. All (FitsWidth
        (paragraph_of direction glyphs.now (length text.now) breaks.now width)) lines.items) }
    ensures full { IfOk result (λ lines. All (IsFull direction (S.IsShapedLine shaper.now)
        (paragraph_of direction glyphs.now (length text.now) breaks.now width)) lines.items) }
    ensures may { OnOk result (CanBeCut direction glyphs.now text.now breaks.now) }
    ensures fault { IfErr result (IsFillFaultOf (S.IsShapedLine shaper.now) (S.IsRefusedLine shaper.now) direction
        glyphs.now text.now breaks.now width) }
{
    let frame = frame_of(glyphs, text, direction, breaks, width)?;
    lines_one_by_one(alloc, shaper, glyphs, frame, breaks)
}

/// Fills one line after another.
fn lines_one_by_one<S: ShapesLines>(
    alloc: Global,
    shaper: &S,
    glyphs: &GlyphBuffer,
    frame: Frame,
    breaks: &[usize],
) -> Result<Vec<FilledLine>, FillFault<S::Fault>>
    requires page { IsPage glyphs.now frame breaks.now }
    ensures lines { IfOk result (λ lines. AreLinesTo frame.direction (S.IsShapedLine shaper.now)
        (page_of glyphs.now frame breaks.now) frame.end lines.items) }
    ensures fault { IfErr result (IsLineFault (S.IsShapedLine shaper.now) (S.IsRefusedLine shaper.now)
        (page_of glyphs.now frame breaks.now)) }
{
    let mut lines = Vec::new(alloc);
    let mut start = first_cut();
    let mut first = 0;
    while start.byte < frame.end {
        let taken = fill_line(shaper, glyphs, frame, breaks, start, first)?;
        let next = cut_at(glyphs, frame.direction, frame.end, start, taken.line.end);
        let LineTo { line, piece } = taken;
        push_line(&mut lines, line)?;
        start = next;
        first = piece_past(breaks, piece);
    }
    Ok(lines)
}

/// The index of the piece after another one; past the last one any will do.
fn piece_past(breaks: &[usize], piece: usize) -> usize
    ensures { piece < length breaks.now → result ≡ piece + 1 }
{
    if piece < breaks.len() {
        piece + 1
    } else {
        piece
    }
}

/// Appends a line.
fn push_line(lines: &mut Vec<FilledLine>, line: FilledLine) -> Result<(), AllocError>
    ensures { OnOk result (lines.new.items ≡ lines.old.items ++ line ∷ []) }
{
    lines.push(line)?;
    Ok(())
}

/// Fills the line that begins at a cut, with the piece of index `first`.
fn fill_line<S: ShapesLines>(
    shaper: &S,
    glyphs: &GlyphBuffer,
    frame: Frame,
    breaks: &[usize],
    start: Cut,
    first: usize,
) -> Result<LineTo, FillFault<S::Fault>>
    requires page { IsPage glyphs.now frame breaks.now }
    requires start { IsCut (text_steps frame.direction glyphs.now) frame.end start }
    requires first { IsFirstPiece (page_of glyphs.now frame breaks.now) start.byte first }
    ensures line { IfOk result (IsTaken frame.direction (S.IsShapedLine shaper.now)
        (page_of glyphs.now frame breaks.now) start.byte) }
    ensures fault { IfErr result (IsLineFault (S.IsShapedLine shaper.now) (S.IsRefusedLine shaper.now)
        (page_of glyphs.now frame breaks.now)) }
{
    let piece = shown_piece(glyphs, frame, breaks, start, first);
    let line = line_to(shaper, glyphs, frame, breaks, start, piece)?;
    if may_stay(&line, frame.widths, first, piece) {
        return lengthen(shaper, glyphs, frame, breaks, start, LineTo { line, piece });
    }
    drop(line);
    shorten(shaper, glyphs, frame, breaks, start, first, piece)
}

/// The last piece of the line that begins at a cut, as the paragraph's glyphs show it.
fn shown_piece(
    glyphs: &GlyphBuffer,
    frame: Frame,
    breaks: &[usize],
    start: Cut,
    first: usize,
) -> usize
    requires page { IsPage glyphs.now frame breaks.now }
    requires start { IsCut (text_steps frame.direction glyphs.now) frame.end start }
    requires first { IsFirstPiece (page_of glyphs.now frame breaks.now) start.byte first }
    ensures { first ≤ result }
{
    let width = width_from(frame.widths, start.byte);
    let end = piece_end(breaks, frame.end, first);
    let mut last = cut_at(glyphs, frame.direction, frame.end, start, end);
    let mut piece = first;
    while last.byte < frame.end {
        let end = piece_end(breaks, frame.end, piece + 1);
        let next = cut_at(glyphs, frame.direction, frame.end, last, end);
        if !stays(width, start, last, next) {
            return piece;
        }
        last = next;
        piece += 1;
    }
    piece
}

/// Takes pieces after the line's last one, as long as it fits the width with them.
fn lengthen<S: ShapesLines>(
    shaper: &S,
    glyphs: &GlyphBuffer,
    frame: Frame,
    breaks: &[usize],
    start: Cut,
    reached: LineTo,
) -> Result<LineTo, FillFault<S::Fault>>
    requires page { IsPage glyphs.now frame breaks.now }
    requires start { IsCut (text_steps frame.direction glyphs.now) frame.end start }
    requires reached { IsReached frame.direction (S.IsShapedLine shaper.now)
        (page_of glyphs.now frame breaks.now) start.byte reached }
    ensures line { IfOk result (IsTaken frame.direction (S.IsShapedLine shaper.now)
        (page_of glyphs.now frame breaks.now) start.byte) }
    ensures fault { IfErr result (IsLineFault (S.IsShapedLine shaper.now) (S.IsRefusedLine shaper.now)
        (page_of glyphs.now frame breaks.now)) }
{
    let LineTo {
        mut line,
        mut piece,
    } = reached;
    while line.end < frame.end {
        let longer = line_to(shaper, glyphs, frame, breaks, start, piece + 1)?;
        if fits(&longer, frame.widths) {
            drop(mem::replace(&mut line, longer));
            piece += 1;
        } else {
            return Ok(LineTo { line, piece });
        }
    }
    Ok(LineTo { line, piece })
}

/// Takes pieces away, from the one of index `past` on, until the line fits the width or is one piece. With piece `past` it
/// doesn't fit.
fn shorten<S: ShapesLines>(
    shaper: &S,
    glyphs: &GlyphBuffer,
    frame: Frame,
    breaks: &[usize],
    start: Cut,
    first: usize,
    past: usize,
) -> Result<LineTo, FillFault<S::Fault>>
    requires page { IsPage glyphs.now frame breaks.now }
    requires start { IsCut (text_steps frame.direction glyphs.now) frame.end start }
    requires first { IsFirstPiece (page_of glyphs.now frame breaks.now) start.byte first }
    requires some { first < past }
    requires wide { IsTooWide frame.direction (S.IsShapedLine shaper.now) (page_of glyphs.now frame breaks.now)
        start.byte (piece_end (page_of glyphs.now frame breaks.now) past) }
    ensures line { IfOk result (IsTaken frame.direction (S.IsShapedLine shaper.now)
        (page_of glyphs.now frame breaks.now) start.byte) }
    ensures fault { IfErr result (IsLineFault (S.IsShapedLine shaper.now) (S.IsRefusedLine shaper.now)
        (page_of glyphs.now frame breaks.now)) }
{
    let mut piece = past - 1;
    while first < piece {
        let line = line_to(shaper, glyphs, frame, breaks, start, piece)?;
        if fits(&line, frame.widths) {
            return Ok(LineTo { line, piece });
        }
        piece -= 1;
    }
    let one = line_to(shaper, glyphs, frame, breaks, start, piece)?;
    Ok(LineTo { line: one, piece })
}

/// Whether a line up to a piece may be as wide as it is: it is one piece, or it fits its width.
fn may_stay(line: &FilledLine, widths: Widths, first: usize, piece: usize) -> bool
    ensures { result ≡ (piece == first || int_le line.now.width (width_from widths line.now.start)) }
{
    piece == first || fits(line, widths)
}

/// Whether a line is no wider than it may be, by the byte at which it begins.
fn fits(line: &FilledLine, widths: Widths) -> bool
    ensures { result ≡ int_le line.now.width (width_from widths line.now.start) }
{
    line.width <= width_from(widths, line.start)
}

/// The line from a cut to the end of a piece, with its glyphs.
fn line_to<S: ShapesLines>(
    shaper: &S,
    glyphs: &GlyphBuffer,
    frame: Frame,
    breaks: &[usize],
    start: Cut,
    piece: usize,
) -> Result<FilledLine, FillFault<S::Fault>>
    requires page { IsPage glyphs.now frame breaks.now }
    requires start { IsCut (text_steps frame.direction glyphs.now) frame.end start }
    requires after { start.byte < get_or breaks.now piece frame.end }
    ensures line { IfOk result (IsLineTo frame.direction (S.IsShapedLine shaper.now)
        (page_of glyphs.now frame breaks.now) start.byte piece) }
    ensures fault { IfErr result (IsLineFault (S.IsShapedLine shaper.now) (S.IsRefusedLine shaper.now)
        (page_of glyphs.now frame breaks.now)) }
{
    let byte = piece_end(breaks, frame.end, piece);
    let end = cut_at(glyphs, frame.direction, frame.end, start, byte);
    if are_both_safe(start, end) {
        return Ok(own_line(frame, start, end));
    }
    shaped_line(shaper, frame.direction, start.byte, byte)
}

/// Whether breaks at two cuts are safe.
fn are_both_safe(start: Cut, end: Cut) -> bool
    ensures { result ≡ (start.is_safe && end.is_safe) }
{
    start.is_safe && end.is_safe
}

/// The line between two safe cuts, with the paragraph's glyphs.
fn own_line(frame: Frame, start: Cut, end: Cut) -> FilledLine
    requires start { IsMeasured start }
    requires end { IsMeasured end }
    requires counted { IsCountedTo frame start end }
    ensures { result ≡ own_line frame start end }
{
    FilledLine {
        start: start.byte,
        end: end.byte,
        width: end.pen - start.pen,
        glyphs: LineGlyphs::Own(glyph_range(frame, start.glyphs, end.glyphs)),
    }
}

/// The line from one byte to another, shaped again.
fn shaped_line<S: ShapesLines>(
    shaper: &S,
    direction: Direction,
    start: usize,
    end: usize,
) -> Result<FilledLine, FillFault<S::Fault>>
    ensures line { IfOk result (IsShapedTo direction (S.IsShapedLine shaper.now) start end) }
    ensures fault { IfErr result (IsShapeFault (S.IsShapedLine shaper.now) (S.IsRefusedLine shaper.now) start end) }
{
    let glyphs = match shaper.shape_line(start, end) {
        Ok(glyphs) => glyphs,
        Err(fault) => return Err(FillFault::Shape(fault)),
    };
    if glyphs.len() > i32::MAX as usize {
        return Err(FillFault::TooManyGlyphs);
    }
    let width = width_of(&glyphs, direction);
    Ok(FilledLine {
        start,
        end,
        width,
        glyphs: LineGlyphs::Shaped(glyphs),
    })
}

/// The sum of the advances of glyphs.
fn width_of(glyphs: &GlyphBuffer, direction: Direction) -> i64
    requires { length (all_glyphs glyphs.now) < 2 ^ 31 }
    ensures { result ≡ width_of direction glyphs.now }
{
    let mut pen = 0;
    for position in glyphs.glyph_positions() {
        pen += advance_along(direction, *position);
    }
    pen
}

/// The byte at which a piece ends, the last one at the end of the text.
fn piece_end(breaks: &[usize], end: usize, piece: usize) -> usize
    ensures { result ≡ get_or breaks.now piece end }
{
    match breaks.get(piece) {
        Some(byte) => *byte,
        None => end,
    }
}
