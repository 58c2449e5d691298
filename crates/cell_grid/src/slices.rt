//! The slices of a line's text, in the order of the text.
ghost use Rattle.std.specs.Prelude.{◌≡◌, ◌∷◌, ◌↔◌, [], IfErr, IfOk, IsTrue, OnOk};
ghost use Rattle.kuspveli.specs.buffer_common.Direction.{is_backward};
ghost use Rattle.kuspveli.specs.buffer_glyphs.Items.{clusters};
ghost use Rattle.kuspveli.specs.shaping_buffer.buffer_core.Sides.{all_glyphs};
ghost use Rattle.caret_model.specs.Pens.{are_at_beginning};
ghost use Rattle.caret_model.specs.Stops.{in_text_order};
ghost use Rattle.cell_grid.specs.Grids.{HasCells, IsFaultOf};
ghost use Rattle.cell_grid.specs.Walk.{AreTextSlices};

use crate::cells::CellFault;
use kuspveli::hb_shape::fitting::slices_fit;
use kuspveli::hb_shape::{SourceSlice, source_slices};
use kuspveli::laws::slices::laws::law_source_slices_join;
use kuspveli::{Direction, GlyphBuffer};
use std::alloc::Global;

/// The slices of the text of a line, each with its run of glyphs, in the order of the text.
pub(crate) fn text_slices(
    alloc: Global,
    glyphs: &GlyphBuffer,
    text: &str,
    direction: Direction,
) -> Result<Vec<SourceSlice>, CellFault>
    ensures slices { IfOk result
        (λ slices. AreTextSlices (is_backward direction) (clusters (all_glyphs glyphs.now)) text.now slices.items) }
    ensures may { OnOk result (HasCells direction glyphs.now text.now) }
    ensures fault { IfErr result (IsFaultOf direction glyphs.now text.now) }
{
    if are_empty(glyphs, text) {
        return Ok(Vec::new(alloc));
    }
    if !slices_fit(glyphs, text) {
        return Err(CellFault::NoSlices);
    }
    law_source_slices_join();
    let backward = direction.is_backward();
    let slices = source_slices(alloc, glyphs, text)?;
    if !are_at_beginning(backward, text.len(), &slices) {
        return Err(CellFault::NoSlices);
    }
    Ok(in_text_order(backward, slices))
}

/// Whether a text has no bytes, and its result no glyphs.
fn are_empty(glyphs: &GlyphBuffer, text: &str) -> bool
    ensures { IsTrue result ↔ (text.now ≡ [] × all_glyphs glyphs.now ≡ []) }
{
    text.is_empty() && glyphs.is_empty()
}

/// What stands from left to right, in the order of the text.
fn in_text_order(backward: bool, mut slices: Vec<SourceSlice>) -> Vec<SourceSlice>
    ensures { result.items ≡ in_text_order backward slices.items }
{
    if backward {
        slices.reverse();
    }
    slices
}

/// Whether the first slice from the left is at the beginning of the text, or on a backward line at its end.
fn are_at_beginning(backward: bool, end: usize, slices: &[SourceSlice]) -> bool
    ensures { result ≡ are_at_beginning backward end slices.now }
{
    match slices {
        [] => true,
        [first, ..] => is_at_beginning(backward, end, *first),
    }
}

fn is_at_beginning(backward: bool, end: usize, slice: SourceSlice) -> bool
    ensures { result ≡ are_at_beginning backward end (slice ∷ []) }
{
    if backward {
        slice.end == end
    } else {
        slice.start == 0
    }
}
