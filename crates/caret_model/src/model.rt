//! The carets of a shaped line.
ghost use Rattle.std.specs.Prelude.{◌≡◌, ◌≢◌, ◌<◌, ◌^◌, IfErr, IfOk, OnOk, false, length, true};
ghost use Rattle.kuspveli.specs.shaping_buffer.buffer_core.Sides.{all_glyphs};
ghost use Rattle.caret_model.specs.Lines.{HasLine, IsFaultOf, IsFaultTo, IsLineOf, IsLineTo};
ghost use Rattle.caret_model.specs.Moves.{IsClosest, IsNearest, IsSliceAt, caret_at, next_visual, previous_visual};
ghost use Rattle.caret_model.specs.Selections.{selection_between, selection_of};
ghost use Rattle.caret_model.specs.Stops.{AreStops, carets_at_stops, carets_by_font};

use crate::carets::{Caret, CaretFault, Selection};
use crate::line::{are_at_beginning, carets_of};
use crate::moves::{closest, get, index_at, nearest};
use crate::stops::{are_stops, with_stops};
use font_carets::{LigatureCarets, SortedRows, no_ligatures};
use kuspveli::hb_shape::fitting::{slices_fit, units_fit};
use kuspveli::hb_shape::{SourceSlice, source_slices, unit_slices};
use kuspveli::laws::slices::laws::law_source_slices_join;
use kuspveli::{Direction, GlyphBuffer, GlyphInfo};
use std::alloc::Global;
use std::marker::Model;

/// The carets of a shaped line of one direction, and the slices of its text between them.
#[derive(Drop)]
pub struct CaretModel {
    slices: Vec<SourceSlice>,
    carets: Vec<Caret>,
    backward: bool,
    end: usize,
}

impl Model for CaretModel {
    ghost use Rattle.caret_model.specs.Lines.{IsLine, Line};

    ghost Value = { Line };

    ghost view = { λ m. record { slices = m.slices.items; carets = m.carets.items; backward = m.backward; end = m.end } };

    ghost invariant = { λ m. IsLine (record { slices = m.slices.items; carets = m.carets.items; backward = m.backward; end = m.end }) };
}

impl CaretModel {
    /// The carets of the result of a text. The direction is the one that the text was shaped along.
    pub fn new(
        alloc: Global,
        glyphs: &GlyphBuffer,
        text: &str,
        direction: Direction,
    ) -> Result<CaretModel, CaretFault>
        ensures line { IfOk result (IsLineOf direction glyphs.now text.now) }
        ensures few { OnOk result (length (all_glyphs glyphs.now) < 2 ^ 32) }
        ensures fault { IfErr result (IsFaultOf direction glyphs.now text.now) }
    {
        if !slices_fit(glyphs, text) {
            return Err(CaretFault::NoSlices);
        }
        if glyphs.len() > u32::MAX as usize {
            return Err(CaretFault::TooManyGlyphs);
        }
        law_source_slices_join();
        let end = text.len();
        let backward = direction.is_backward();
        let slices = source_slices(alloc, glyphs, text)?;
        if !are_at_beginning(backward, end, &slices) {
            return Err(CaretFault::NoSlices);
        }
        let carets = carets_of(alloc, direction, glyphs.glyph_positions(), end, &slices)?;
        Ok(CaretModel {
            slices,
            carets,
            backward,
            end,
        })
    }

    /// The carets of the result of a text of some units that its clusters are of, as of UTF-16; a caret's byte is then the
    /// index of a unit.
    #[tactic(auto, using(crate::proofs::Units::without_fit))]
    pub fn of_units(
        alloc: Global,
        glyphs: &GlyphBuffer,
        units: usize,
        direction: Direction,
    ) -> Result<CaretModel, CaretFault>
        ensures line { IfOk result (IsLineTo direction glyphs.now units) }
        ensures few { OnOk result (length (all_glyphs glyphs.now) < 2 ^ 32) }
        ensures fault { IfErr result (IsFaultTo direction glyphs.now units) }
    {
        if !units_fit(glyphs, units) {
            return Err(CaretFault::NoSlices);
        }
        if glyphs.len() > u32::MAX as usize {
            return Err(CaretFault::TooManyGlyphs);
        }
        law_source_slices_join();
        let backward = direction.is_backward();
        let slices = unit_slices(alloc, glyphs, units)?;
        if !are_at_beginning(backward, units, &slices) {
            return Err(CaretFault::NoSlices);
        }
        let carets = carets_of(alloc, direction, glyphs.glyph_positions(), units, &slices)?;
        Ok(CaretModel {
            slices,
            carets,
            backward,
            end: units,
        })
    }

    /// The carets from left to right; of a vertical line, from its top.
    pub fn carets(&self) -> &[Caret]
        ensures { result.now ≡ self.now.carets }
    {
        self.carets.as_slice()
    }

    /// The runs of glyphs, each with its bytes of the text, from left to right.
    pub fn slices(&self) -> &[SourceSlice]
        ensures { result.now ≡ self.now.slices }
    {
        self.slices.as_slice()
    }

    /// The caret before a byte of the text, if one may stand there.
    pub fn caret_at(&self, byte: usize) -> Option<Caret>
        ensures { result ≡ caret_at self.now.carets byte }
    {
        get(&self.carets, index_at(&self.carets, byte)?)
    }

    /// The nearest caret to a position, of several the first from the left.
    pub fn nearest(&self, position: i64) -> Caret
        ensures { IsNearest position self.now.carets result }
    {
        let i = nearest(&self.carets, position);
        self.carets[i]
    }

    /// The caret to the right of the one at a byte; none at the right end, and where no caret may stand at the byte.
    pub fn next_visual(&self, byte: usize) -> Option<Caret>
        ensures { result ≡ next_visual self.now.carets byte }
    {
        get(&self.carets, index_at(&self.carets, byte)? + 1)
    }

    /// The caret to the left of the one at a byte; none at the left end, and where no caret may stand at the byte.
    pub fn previous_visual(&self, byte: usize) -> Option<Caret>
        ensures { result ≡ previous_visual self.now.carets byte }
    {
        get(&self.carets, index_at(&self.carets, byte)?.checked_sub(1)?)
    }

    /// The first caret after a byte, in the order of the text.
    pub fn next_logical(&self, byte: usize) -> Option<Caret>
        ensures { IsClosest false byte self.now.carets result }
    {
        closest(&self.carets, byte, false)
    }

    /// The last caret before a byte, in the order of the text.
    pub fn previous_logical(&self, byte: usize) -> Option<Caret>
        ensures { IsClosest true byte self.now.carets result }
    {
        closest(&self.carets, byte, true)
    }

    /// The run whose slice of the text has a byte; none past the end of the text.
    pub fn slice_at(&self, byte: usize) -> Option<SourceSlice>
        ensures { IsSliceAt self.now byte result }
    {
        for slice in &self.slices {
            if slice.start <= byte && byte < slice.end {
                return Some(*slice);
            }
        }
        None
    }

    /// The carets in the order of the text, also those at stops inside of clusters, as of a ligature's letters: they divide
    /// the width of a cluster evenly. Stops rise, from after byte 0 up to the end of the text; those between clusters have
    /// carets in any case.
    pub fn carets_at_stops(&self, alloc: Global, stops: &[usize]) -> Result<Vec<Caret>, CaretFault>
        ensures carets { IfOk result (λ carets. carets.items ≡ carets_at_stops self.now stops.now) }
        ensures may { OnOk result (AreStops self.now.end 0 stops.now) }
        ensures fault { IfErr result (λ e. e ≢ CaretFault.OutOfMemory
            → (e ≡ CaretFault.InvalidStops) × (¬ AreStops self.now.end 0 stops.now)) }
    {
        self.carets_in(alloc, &no_ligatures(alloc), &[], stops)
    }

    /// The carets in the order of the text, as `carets_at_stops` has them, but for clusters for which a font gives carets
    /// (GDEF, the ligature caret list), as many as there are stops inside: there they stand at the font's coordinates from the
    /// left edge of the cluster, none past its right edge. `glyphs` are those of the line, which is a horizontal one.
    pub fn carets_by_font(
        &self,
        alloc: Global,
        ligatures: &SortedRows<LigatureCarets>,
        glyphs: &GlyphBuffer,
        stops: &[usize],
    ) -> Result<Vec<Caret>, CaretFault>
        ensures carets { IfOk result
            (λ carets. carets.items ≡ carets_by_font self.now ligatures.now (all_glyphs glyphs.now) stops.now) }
        ensures may { OnOk result (AreStops self.now.end 0 stops.now) }
        ensures fault { IfErr result (λ e. e ≢ CaretFault.OutOfMemory
            → (e ≡ CaretFault.InvalidStops) × (¬ AreStops self.now.end 0 stops.now)) }
    {
        self.carets_in(alloc, ligatures, glyphs.glyph_infos(), stops)
    }

    fn carets_in(
        &self,
        alloc: Global,
        ligatures: &SortedRows<LigatureCarets>,
        glyphs: &[GlyphInfo],
        stops: &[usize],
    ) -> Result<Vec<Caret>, CaretFault>
        ensures carets { IfOk result
            (λ carets. carets.items ≡ carets_by_font self.now ligatures.now glyphs.now stops.now) }
        ensures may { OnOk result (AreStops self.now.end 0 stops.now) }
        ensures fault { IfErr result (λ e. e ≢ CaretFault.OutOfMemory
            → (e ≡ CaretFault.InvalidStops) × (¬ AreStops self.now.end 0 stops.now)) }
    {
        if !are_stops(self.end, stops) {
            return Err(CaretFault::InvalidStops);
        }
        let carets = with_stops(
            alloc,
            &self.carets,
            self.backward,
            ligatures,
            glyphs,
            &self.slices,
            stops,
        )?;
        Ok(carets)
    }

    /// What is selected from one byte to another one; none where no caret may stand at one of them, and where the first is
    /// after the other.
    pub fn selection(&self, from: usize, to: usize) -> Option<Selection>
        ensures { result ≡ selection_of self.now from to }
    {
        if to < from {
            return None;
        }
        let first = self.caret_at(from)?;
        let last = self.caret_at(to)?;
        Some(between(self.backward, first, last))
    }
}

/// The selection from one caret to a later one of the text.
fn between(backward: bool, first: Caret, last: Caret) -> Selection
    ensures { result ≡ selection_between backward first last }
{
    let (start, end) = if backward {
        (last.position, first.position)
    } else {
        (first.position, last.position)
    };
    Selection { start, end }
}
