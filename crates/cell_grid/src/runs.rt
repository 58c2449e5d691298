//! The runs of a line, slice by slice.
ghost use Rattle.std.specs.Prelude.{◌≡◌, ◌≤◌, ◌<◌, ◌*◌, ◌+◌, ◌^◌, ◌==◌, All, IfOk, length, map};
ghost use Rattle.kuspveli.specs.buffer_parts.Slices.{AreJoined};
ghost use Rattle.kuspveli.specs.shape_slices.Runs.{byte_range};
ghost use Rattle.cell_grid.specs.Grids.{end_of_runs};
ghost use Rattle.cell_grid.specs.Walk.{IsSliceAdded, IsSliceOf, run_from, run_with, runs_of};
ghost use Rattle.cell_grid.specs.Widths.{slice_width};

use crate::cells::CellRun;
use kuspveli::hb_shape::SourceSlice;
use std::alloc::{AllocError, Global};
use unicode_width::UnicodeWidthStr;

/// The runs of slices that are in the order of the text: each slice that takes no cell is in the run of the slice before
/// it. A terminal draws such characters over the cell before them, so a run is what it has to draw at once; a first run
/// without a cell is never drawn.
pub(crate) fn runs_of(
    alloc: Global,
    backward: bool,
    text: &str,
    slices: &[SourceSlice],
) -> Result<Vec<CellRun>, AllocError>
    requires joined { AreJoined 0 (length text.now) (map byte_range slices.now) }
    requires cuts { All (IsSliceOf text.now) slices.now }
    ensures { IfOk result (λ runs. runs.items ≡ runs_of backward text.now slices.now) }
{
    let mut runs = Vec::new(alloc);
    let [first, ..] = slices else {
        return Ok(runs);
    };
    let mut run = run_from(0, *first, slice_width(text, *first));
    for i in 1..slices.len() {
        run = add_slice(&mut runs, backward, text, run, slices[i])?;
    }
    runs.push(run)?;
    Ok(runs)
}

/// Adds a slice to the run before it, or ends that run: the run that has the slice.
fn add_slice(
    runs: &mut Vec<CellRun>,
    backward: bool,
    text: &str,
    run: CellRun,
    slice: SourceSlice,
) -> Result<CellRun, AllocError>
    requires slice { IsSliceOf text.now slice }
    requires few { run.end_cell ≤ 2 * slice.start }
    ensures added { IfOk result (λ now. IsSliceAdded (slice_width text.now (byte_range slice) == 0) run
        (run_with backward run slice) (run_from text.now run.end_cell slice) now runs.old.items runs.new.items) }
    ensures bound { IfOk result (λ now. now.end_cell ≤ 2 * slice.end) }
{
    let width = slice_width(text, slice);
    if width == 0 {
        return Ok(run_with(backward, run, slice));
    }
    runs.push(run)?;
    Ok(run_from(run.end_cell, slice, width))
}

/// How many cells a slice of a text takes.
fn slice_width(text: &str, slice: SourceSlice) -> usize
    requires { IsSliceOf text.now slice }
    ensures width { result ≡ slice_width text.now (byte_range slice) }
    ensures bound { result + 2 * slice.start ≤ 2 * slice.end }
{
    let part = &text[slice.start..slice.end];
    part.width()
}

/// The run of a slice of this width, from a cell on.
fn run_from(cell: usize, slice: SourceSlice, width: usize) -> CellRun
    requires { cell + width < 2 ^ 64 }
    ensures { result ≡ record {
      start = slice.start;
      end = slice.end;
      first_cell = cell;
      end_cell = cell + width;
      first_glyph = slice.first_glyph;
      end_glyph = slice.end_glyph;
    } }
{
    CellRun {
        start: slice.start,
        end: slice.end,
        first_cell: cell,
        end_cell: cell + width,
        first_glyph: slice.first_glyph,
        end_glyph: slice.end_glyph,
    }
}

/// A run with the next slice, which takes no cell; on a backward line its glyphs are to the left of the run's.
fn run_with(backward: bool, run: CellRun, slice: SourceSlice) -> CellRun
    ensures { result ≡ run_with backward run slice }
{
    if backward {
        return CellRun {
            end: slice.end,
            first_glyph: slice.first_glyph,
            ..run
        };
    }
    CellRun {
        end: slice.end,
        end_glyph: slice.end_glyph,
        ..run
    }
}

/// The cell after the last of some runs.
pub(crate) fn end_of_runs(runs: &[CellRun]) -> usize
    ensures { result ≡ end_of_runs runs.now }
{
    match runs.last() {
        Some(run) => run.end_cell,
        None => 0,
    }
}
