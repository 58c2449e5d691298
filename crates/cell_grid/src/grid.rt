//! The cells of a shaped line.
ghost use Rattle.std.specs.Prelude.{◌≡◌, IfErr, IfOk, OnOk, filter, slice_range};
ghost use Rattle.kuspveli.specs.shaping_buffer.buffer_core.Sides.{all_glyphs};
ghost use Rattle.cell_grid.specs.Finding.{IsRunAt, has_cell_between};
ghost use Rattle.cell_grid.specs.Grids.{HasCells, IsFaultOf, IsGridOf, cell_glyph, cell_glyphs};

use crate::cells::{CellFault, CellGlyph, CellRun};
use crate::runs::{end_of_runs, runs_of};
use crate::slices::text_slices;
use kuspveli::{Direction, GlyphBuffer, GlyphInfo, GlyphPosition};
use std::alloc::{AllocError, Global};
use std::marker::Model;

/// The cells of a shaped line of one direction: its runs, in the order of the text, and its glyphs.
#[derive(Drop)]
pub struct CellGrid {
    runs: Vec<CellRun>,
    glyphs: Vec<CellGlyph>,
    width: usize,
}

impl Model for CellGrid {
    ghost use Rattle.cell_grid.specs.Grids.{Grid, IsGrid};

    ghost Value = { Grid };

    ghost view = { λ g. record { runs = g.runs.items; glyphs = g.glyphs.items; width = g.width } };

    ghost invariant = { λ g. IsGrid (record { runs = g.runs.items; glyphs = g.glyphs.items; width = g.width }) };
}

/// The cells of the result of a text, which was shaped along the direction. No run divides a cluster, and at the level
/// Graphemes none divides a grapheme (`law_runs_begin_at_graphemes`). A character that takes no cell is in the run of the
/// cell before it, over which a terminal draws it.
pub fn cell_grid(
    alloc: Global,
    glyphs: &GlyphBuffer,
    text: &str,
    direction: Direction,
) -> Result<CellGrid, CellFault>
    ensures grid { IfOk result (IsGridOf glyphs.now text.now) }
    ensures may { OnOk result (HasCells direction glyphs.now text.now) }
    ensures fault { IfErr result (IsFaultOf direction glyphs.now text.now) }
{
    let slices = text_slices(alloc, glyphs, text, direction)?;
    let runs = runs_of(alloc, direction.is_backward(), text, &slices)?;
    let width = end_of_runs(&runs);
    let drawn = cell_glyphs(alloc, glyphs)?;
    Ok(CellGrid {
        runs,
        glyphs: drawn,
        width,
    })
}

/// The glyphs of a result as they are drawn.
fn cell_glyphs(alloc: Global, glyphs: &GlyphBuffer) -> Result<Vec<CellGlyph>, AllocError>
    ensures { IfOk result (λ drawn. drawn.items ≡ cell_glyphs glyphs.now) }
{
    let mut drawn = Vec::new(alloc);
    let infos = glyphs.glyph_infos();
    let positions = glyphs.glyph_positions();
    for i in 0..infos.len() {
        drawn.push(cell_glyph(infos[i], positions[i]))?;
    }
    Ok(drawn)
}

/// A glyph as it is drawn.
fn cell_glyph(info: GlyphInfo, position: GlyphPosition) -> CellGlyph
    ensures { result ≡ cell_glyph (info, position) }
{
    CellGlyph {
        glyph_id: info.glyph_id,
        x_advance: position.x_advance,
        y_advance: position.y_advance,
        x_offset: position.x_offset,
        y_offset: position.y_offset,
    }
}

impl CellGrid {
    /// The runs, in the order of the text.
    pub fn runs(&self) -> &[CellRun]
        ensures { result.now ≡ self.now.runs }
    {
        self.runs.as_slice()
    }

    /// How many cells the line has.
    pub fn width(&self) -> usize
        ensures { result ≡ self.now.width }
    {
        self.width
    }

    /// The glyphs of a run, from left to right.
    pub fn glyphs_of(&self, run: CellRun) -> &[CellGlyph]
        ensures { result.now ≡ slice_range self.now.glyphs run.first_glyph run.end_glyph }
    {
        let end = run.end_glyph.min(self.glyphs.len());
        if end <= run.first_glyph {
            return &[];
        }
        &self.glyphs[run.first_glyph..end]
    }

    /// The run that has a cell; none past the end of the line.
    pub fn run_at(&self, cell: usize) -> Option<CellRun>
        ensures { IsRunAt self.now cell result }
    {
        for run in &self.runs {
            if run.first_cell <= cell && cell < run.end_cell {
                return Some(*run);
            }
        }
        None
    }

    /// The runs that have one of the cells from one to another, as those that are drawn where these are exposed. They are
    /// the fewest runs that have all of these cells.
    pub fn runs_between(&self, from: usize, to: usize) -> &[CellRun]
        ensures { result.now ≡ filter (has_cell_between from to) self.now.runs }
    {
        if to <= from {
            return &[];
        }
        let start = self.runs.partition_point(|run| run.end_cell <= from);
        let end = self.runs.partition_point(|run| run.first_cell < to);
        if end <= start {
            return &[];
        }
        &self.runs[start..end]
    }
}
