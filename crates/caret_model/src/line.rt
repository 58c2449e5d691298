//! Carets along the glyphs of a line.
ghost use Rattle.std.specs.Prelude.{◌≡◌, ◌≤◌, ◌<◌, ◌^◌, IfOk, length, map};
ghost use Rattle.kuspveli.specs.buffer_common.Direction.{is_backward, is_horizontal};
ghost use Rattle.kuspveli.specs.buffer_parts.Slices.{AreJoined};
ghost use Rattle.kuspveli.specs.shape_slices.Runs.{glyph_range};
ghost use Rattle.caret_model.specs.Lines.{advance_along, carets_of, left_byte, right_end};
ghost use Rattle.caret_model.specs.Pens.{IsPenAt, are_at_beginning};

use crate::carets::Caret;
use kuspveli::hb_shape::SourceSlice;
use kuspveli::{Direction, GlyphPosition};
use std::alloc::{AllocError, Global};

/// A caret at the left edge of each run, and one at the right end of the line.
pub(crate) fn carets_of(
    alloc: Global,
    direction: Direction,
    positions: &[GlyphPosition],
    end: usize,
    slices: &[SourceSlice],
) -> Result<Vec<Caret>, AllocError>
    requires few { length positions.now < 2 ^ 32 }
    requires joined { AreJoined 0 (length positions.now) (map glyph_range slices.now) }
    ensures { IfOk result (λ carets. carets.items ≡ carets_of direction positions.now end slices.now) }
{
    let backward = direction.is_backward();
    let mut carets = Vec::new(alloc);
    let mut pen = 0;
    let mut at = 0;
    for slice in slices {
        carets.push(caret(left_byte(backward, *slice), pen))?;
        pen = pen_after(direction, positions, at, slice.end_glyph, pen);
        at = slice.end_glyph;
    }
    carets.push(caret(right_end(backward, end), pen))?;
    Ok(carets)
}

fn caret(byte: usize, position: i64) -> Caret
    ensures { result ≡ record { byte = byte; position = position } }
{
    Caret { byte, position }
}

/// The pen before the glyph at `to`, by that before the glyph at `from`.
fn pen_after(
    direction: Direction,
    positions: &[GlyphPosition],
    from: usize,
    to: usize,
    before: i64,
) -> i64
    requires ordered { from ≤ to }
    requires within { to ≤ length positions.now }
    requires few { length positions.now < 2 ^ 32 }
    requires before { IsPenAt direction positions.now from before }
    ensures { IsPenAt direction positions.now to result }
{
    let mut pen = before;
    for i in from..to {
        pen += i64::from(advance_along(direction, positions[i]));
    }
    pen
}

/// The advance of a glyph along its line.
fn advance_along(direction: Direction, position: GlyphPosition) -> i32
    ensures { result ≡ advance_along direction position }
{
    if direction.is_horizontal() {
        position.x_advance
    } else {
        position.y_advance
    }
}

/// The byte at the left edge of a run.
fn left_byte(backward: bool, slice: SourceSlice) -> usize
    ensures { result ≡ left_byte backward slice }
{
    if backward { slice.end } else { slice.start }
}

/// The byte at the right end of a line.
fn right_end(backward: bool, end: usize) -> usize
    ensures { result ≡ right_end backward end }
{
    if backward { 0 } else { end }
}

/// Whether the first slice is at the beginning of the text, or on a backward line at its end.
pub(crate) fn are_at_beginning(backward: bool, end: usize, slices: &[SourceSlice]) -> bool
    ensures { result ≡ are_at_beginning backward end slices.now }
{
    match slices {
        [] => true,
        [first, ..] => left_byte(backward, *first) == right_end(!backward, end),
    }
}
