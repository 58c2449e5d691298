//! Lines that are filled with pieces of the text, each from one byte at which a line may end to the next one.
ghost use Rattle.std.specs.Prelude.{◌≡◌, ◌≤◌, ◌<◌, ◌^◌, IfErr, IfOk, OnOk, length};
ghost use Rattle.kuspveli.specs.buffer_common.Direction.{is_backward};
ghost use Rattle.kuspveli.specs.buffer_glyphs.Items.{clusters};
ghost use Rattle.kuspveli.specs.buffer_glyphs.Order.{IsInOrder};
ghost use Rattle.kuspveli.specs.shaping_buffer.buffer_core.Sides.{all_glyphs};
ghost use Rattle.line_pieces.specs.Breaks.{AreBreaksTo};
ghost use Rattle.line_pieces.specs.Cuts.{IsCountedTo, IsMeasured, IsPieceAdded};
ghost use Rattle.line_pieces.specs.Cuts.{glyph_range, line_of, own_glyphs, stays, with_line};
ghost use Rattle.line_pieces.specs.LinesInHand.{IsPage};
ghost use Rattle.line_pieces.specs.Lines.{AreLines, CanBeCut, CanBeCutTo, IsFaultOf, IsFaultTo, paragraph_by, paragraph_of, same_widths, width_from};

use crate::cuts::{Cut, cut_at, first_cut};
use crate::lines::{GlyphRange, Line, LineFault, Widths};
use crate::tests_of_order::{are_breaks, are_breaks_to, are_in_order};
use kuspveli::{Direction, GlyphBuffer};
use std::alloc::{AllocError, Global};

/// How a paragraph is cut into lines.
#[derive(Clone, Copy)]
pub struct Frame {
    pub direction: Direction,
    /// How many glyphs the paragraph has.
    pub count: usize,
    /// How many bytes its text has, or other units.
    pub end: usize,
    pub widths: Widths,
}

/// Cuts a paragraph into lines. `glyphs` is what shaping the whole text along the direction gave, where safe breaks
/// were requested; a line may end at each of `breaks`, which are indices of bytes of the text (those of UAX 14), and at
/// the end of the text. A line takes the pieces between these as long as they fit the width, in font units, and one at
/// least. `LineFault` says why none is cut.
pub fn cut_lines(
    alloc: Global,
    glyphs: &GlyphBuffer,
    text: &str,
    direction: Direction,
    breaks: &[usize],
    width: i64,
) -> Result<Vec<Line>, LineFault>
    ensures lines { IfOk result
        (λ lines. AreLines (paragraph_of direction glyphs.now (length text.now) breaks.now width) lines.items) }
    ensures may { OnOk result (CanBeCut direction glyphs.now text.now breaks.now) }
    ensures fault { IfErr result (IsFaultOf direction glyphs.now text.now breaks.now) }
{
    let frame = frame_of(glyphs, text, direction, breaks, width)?;
    let lines = lines_of_pieces(alloc, glyphs, frame, breaks)?;
    Ok(lines)
}

/// How a paragraph is cut into lines that are all to fit one width, if it can be cut.
#[tactic(auto, using(crate::proofs::Filled::breaks_to_end))]
pub(crate) fn frame_of(
    glyphs: &GlyphBuffer,
    text: &str,
    direction: Direction,
    breaks: &[usize],
    width: i64,
) -> Result<Frame, LineFault>
    ensures may { OnOk result (CanBeCut direction glyphs.now text.now breaks.now) }
    ensures page { IfOk result (λ frame. IsPage glyphs.now frame breaks.now) }
    ensures frame { IfOk result (λ frame. frame ≡ record {
      direction = direction;
      count = length (all_glyphs glyphs.now);
      end = length text.now;
      widths = same_widths width;
    }) }
    ensures fault { IfErr result (IsFaultOf direction glyphs.now text.now breaks.now) }
{
    if glyphs.len() > i32::MAX as usize {
        return Err(LineFault::TooManyGlyphs);
    }
    if !are_in_order(glyphs.glyph_infos(), direction.is_backward()) {
        return Err(LineFault::ClustersOutOfOrder);
    }
    if !are_breaks(text, breaks) {
        return Err(LineFault::InvalidBreaks);
    }
    Ok(Frame {
        direction,
        // as many as there are glyphs
        count: glyphs.glyph_positions().len(),
        end: text.len(),
        widths: Widths {
            first: width,
            rest: width,
        },
    })
}

/// Cuts a paragraph into lines, as `cut_lines` does, by indices of the units that its clusters are of, as of UTF-16: its
/// text has `end` of them, and a line may end at each of `breaks`. The first line fits a width of its own.
pub fn cut_unit_lines(
    alloc: Global,
    glyphs: &GlyphBuffer,
    end: usize,
    direction: Direction,
    breaks: &[usize],
    widths: Widths,
) -> Result<Vec<Line>, LineFault>
    ensures lines { IfOk result
        (λ lines. AreLines (paragraph_by direction glyphs.now end breaks.now widths) lines.items) }
    ensures may { OnOk result (CanBeCutTo direction glyphs.now end breaks.now) }
    ensures fault { IfErr result (IsFaultTo direction glyphs.now end breaks.now) }
{
    if glyphs.len() > i32::MAX as usize {
        return Err(LineFault::TooManyGlyphs);
    }
    if !are_in_order(glyphs.glyph_infos(), direction.is_backward()) {
        return Err(LineFault::ClustersOutOfOrder);
    }
    if !are_breaks_to(end, breaks) {
        return Err(LineFault::InvalidBreaks);
    }
    let frame = Frame {
        direction,
        count: glyphs.glyph_positions().len(),
        end,
        widths,
    };
    let lines = lines_of_pieces(alloc, glyphs, frame, breaks)?;
    Ok(lines)
}

/// Fills one line after another.
fn lines_of_pieces(
    alloc: Global,
    glyphs: &GlyphBuffer,
    frame: Frame,
    breaks: &[usize],
) -> Result<Vec<Line>, AllocError>
    requires count { frame.count ≡ length (all_glyphs glyphs.now) }
    requires few { frame.count < 2 ^ 31 }
    requires positions { length glyphs.now.positions ≡ length (all_glyphs glyphs.now) }
    requires order { IsInOrder (is_backward frame.direction) (clusters (all_glyphs glyphs.now)) }
    requires breaks { AreBreaksTo frame.end 0 breaks.now }
    ensures { IfOk result
        (λ lines. AreLines (paragraph_by frame.direction glyphs.now frame.end breaks.now frame.widths) lines.items) }
{
    let mut lines = Vec::new(alloc);
    let mut start = first_cut();
    let mut last = start;
    for byte in breaks {
        let next = cut_at(glyphs, frame.direction, frame.end, last, *byte);
        start = add_piece(&mut lines, frame, start, last, next)?;
        last = next;
    }
    if last.byte == frame.end {
        end_line(&mut lines, frame, start, last)?;
        return Ok(lines);
    }
    let next = cut_at(glyphs, frame.direction, frame.end, last, frame.end);
    let line_start = add_piece(&mut lines, frame, start, last, next)?;
    end_line(&mut lines, frame, line_start, next)?;
    Ok(lines)
}

/// Adds a piece to the line that is being filled, or ends that line before it: where the next one starts.
fn add_piece(
    lines: &mut Vec<Line>,
    frame: Frame,
    start: Cut,
    last: Cut,
    next: Cut,
) -> Result<Cut, AllocError>
    requires start { IsMeasured start }
    requires last { IsMeasured last }
    requires next { IsMeasured next }
    requires counted { IsCountedTo frame start last }
    ensures { IfOk result
        (λ cut. IsPieceAdded (stays (width_from frame.widths start.byte) start last next) start last
        (line_of frame start last) cut lines.old.items lines.new.items) }
{
    if stays(width_from(frame.widths, start.byte), start, last, next) {
        return Ok(start);
    }
    lines.push(line_of(frame, start, last))?;
    Ok(last)
}

/// The width that a line is to fit, by the byte at which it begins.
pub(crate) fn width_from(widths: Widths, start: usize) -> i64
    ensures { result ≡ width_from widths start }
{
    if start == 0 {
        widths.first
    } else {
        widths.rest
    }
}

/// Whether a piece stays in the line: it is the first one, or the line fits the width with it.
pub(crate) fn stays(width: i64, start: Cut, last: Cut, next: Cut) -> bool
    requires start { IsMeasured start }
    requires next { IsMeasured next }
    ensures { result ≡ stays width start last next }
{
    start.byte == last.byte || next.pen - start.pen <= width
}

/// Appends the last line of the text, if there is some text.
fn end_line(lines: &mut Vec<Line>, frame: Frame, start: Cut, end: Cut) -> Result<(), AllocError>
    requires start { IsMeasured start }
    requires end { IsMeasured end }
    requires counted { IsCountedTo frame start end }
    ensures { OnOk result (lines.new.items ≡ with_line frame start end lines.old.items) }
{
    if start.byte == end.byte {
        return Ok(());
    }
    lines.push(line_of(frame, start, end))?;
    Ok(())
}

/// The line between two cuts.
fn line_of(frame: Frame, start: Cut, end: Cut) -> Line
    requires start { IsMeasured start }
    requires end { IsMeasured end }
    requires counted { IsCountedTo frame start end }
    ensures { result ≡ line_of frame start end }
{
    Line {
        start: start.byte,
        end: end.byte,
        width: end.pen - start.pen,
        glyphs: own_glyphs(frame, start, end),
    }
}

/// The glyphs between two cuts, if both are safe.
fn own_glyphs(frame: Frame, start: Cut, end: Cut) -> Option<GlyphRange>
    requires { IsCountedTo frame start end }
    ensures { result ≡ own_glyphs frame start end }
{
    if start.is_safe && end.is_safe {
        return Some(glyph_range(frame, start.glyphs, end.glyphs));
    }
    None
}

/// The glyphs from one to another index in the order of the text.
pub(crate) fn glyph_range(frame: Frame, from: usize, to: usize) -> GlyphRange
    requires ordered { from ≤ to }
    requires within { to ≤ frame.count }
    ensures { result ≡ glyph_range frame from to }
{
    if frame.direction.is_backward() {
        return GlyphRange {
            start: frame.count - to,
            end: frame.count - from,
        };
    }
    GlyphRange {
        start: from,
        end: to,
    }
}
