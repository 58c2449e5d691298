//! What is drawn again after an edit, and where on a screen.
ghost use Rattle.std.specs.Prelude.{◌≡◌, ◌≤◌, ◌<◌, ◌↔◌, IsTrue, Some, length, slice_get};
ghost use Rattle.cell_grid.specs.Drawing.{IsToDraw, ShareFront, columns_of, picture, pictures};
ghost use Rattle.caret_model.specs.Stops.{in_text_order};

use crate::cells::{CellGlyph, CellRange, CellRun};
use crate::grid::CellGrid;
use crate::runs::end_of_runs;
use kuspveli::Direction;

/// The cells to draw again where a line became another one: those between the runs at the beginning and at the end that
/// both lines draw alike. Where one line is longer all cells up to its end are.
pub fn cells_to_draw(old: &CellGrid, new: &CellGrid) -> CellRange
    ensures { IsToDraw old.now new.now result }
{
    let front = shared(old, new, false);
    let start = end_of_runs(&new.runs()[..front]);
    if old.width() != new.width() {
        return CellRange {
            start,
            end: old.width().max(new.width()),
        };
    }
    let back = shared(old, new, true);
    let end = end_of_runs(&new.runs()[..new.runs().len() - back]);
    CellRange {
        start,
        end: start.max(end),
    }
}

/// How many runs at the beginning, or where `at_end` at the end, two lines draw alike.
fn shared(old: &CellGrid, new: &CellGrid, at_end: bool) -> usize
    ensures shared { ShareFront (in_text_order at_end (pictures old.now)) (in_text_order at_end (pictures new.now)) result }
    ensures within { result ≤ length new.now.runs }
{
    let count = old.runs().len().min(new.runs().len());
    for i in 0..count {
        if !are_drawn_alike(
            old,
            new,
            run_from(old.runs(), at_end, i),
            run_from(new.runs(), at_end, i),
        ) {
            return i;
        }
    }
    count
}

/// A run by its index from the beginning, or where `at_end` from the end.
fn run_from(runs: &[CellRun], at_end: bool, i: usize) -> CellRun
    requires { i < length runs.now }
    ensures { slice_get (in_text_order at_end runs.now) i ≡ Some result }
{
    if at_end {
        return runs[runs.len() - 1 - i];
    }
    runs[i]
}

/// Whether two lines draw a run of each alike.
fn are_drawn_alike(old: &CellGrid, new: &CellGrid, was: CellRun, is: CellRun) -> bool
    ensures { IsTrue result ↔ picture old.now.glyphs was ≡ picture new.now.glyphs is }
{
    was.first_cell == is.first_cell
        && was.end_cell == is.end_cell
        && are_same(old.glyphs_of(was), new.glyphs_of(is))
}

/// Whether two lists of glyphs are the same.
fn are_same(was: &[CellGlyph], is: &[CellGlyph]) -> bool
    ensures { IsTrue result ↔ was.now ≡ is.now }
{
    was == is
}

/// The columns that cells have on a screen, by its number of columns: a left-to-right line begins at the left edge, a
/// right-to-left one at the right edge.
pub fn columns_of(direction: Direction, columns: usize, cells: CellRange) -> CellRange
    ensures { result ≡ columns_of direction columns cells }
{
    if direction.is_backward() {
        return CellRange {
            start: columns.saturating_sub(cells.end),
            end: columns.saturating_sub(cells.start),
        };
    }
    cells
}
