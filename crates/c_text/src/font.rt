//! A font as handles keep it: what was read, which they share; plans for texts like the last ones; the last text's glyphs.
ghost use Rattle.std.specs.Prelude.{◌≡◌, ◌≢◌, IfErr, IfOk, Ok, Err, OnErr, OnOk, None, Some, false, length, map};
ghost use Rattle.buffer_core.specs.Sides.{all_glyphs, empty_buffer};
ghost use Rattle.c_text.specs.Written.{info_of, with_front};
ghost use Rattle.shell_fonts.specs.Fonts.{AreLibraryTables, font_of};
ghost use Rattle.shell_readers.specs.Input.{IsInput, font_in, input_value};
ghost use Rattle.shell_readers.specs.Tables.{tables_value};
ghost use Rattle.c_text.specs.Advances.{advances_refusal};
ghost use Rattle.c_text.specs.CharacterGlyphs.{glyphs_refusal};
ghost use Rattle.c_text.specs.Fonts.{AreGlyphsOf, HasSegmentOf, IsFaultOf, IsFaultOfFile, AreSetAtFrontIn, file_font, font_with_advances, font_with_glyphs, font_with_invisible, font_with_not_found, new_font, positions_in, without_text};
ghost use Rattle.c_text.specs.Plans.{HasPlansOf};
ghost use Rattle.c_text.specs.Queries.{AreSlicesOf, IsSlicesRefusal};
ghost use Rattle.c_text.specs.Replacements.{glyph_status};

use crate::input::{Input, Tables};
use crate::ligatures::Ligatures;
use crate::line_spacing::{LineSpacing, spacing_in};
use crate::numbers::{NO_GLYPH, OK};
use crate::plan::{KEPT_PLANS, shape_kept};
use crate::queries::write_slices;
use crate::replacements::{NO_REPLACEMENTS, ReplacementGlyphs, put_replacements};
use crate::scale::{NO_SCALE, Scale, write_scaled};
use crate::segment::{NO_SEGMENT, Segment, segment_of};
use crate::texts::{features_of, put_text};
use crate::types::{
    kus_character_glyph_t, kus_glyph_advance_t, kus_glyph_info_t, kus_glyph_position_t,
    kus_slice_t, kus_text_t,
};
use crate::written::write_front;
use buffer_core::buffer::hb_buffer_t;
use buffer_wrappers::glyphs::GlyphBuffer;
use font_carets::{LigatureCarets, SortedRows};
use font_file::FontParts;
use layout_face::Face;
use plan_cache::PlanCache;
use shell_readers::fault::RunFault;
use std::alloc::{AllocError, Global};
use std::marker::Model;
use std::mem;

/// A font with its tables, and the glyphs of the last text that was shaped in it.
#[derive(Drop)]
pub struct Font {
    input: Input,
    plans: PlanCache,
    line: Option<LineSpacing>,
    ligatures: Ligatures,
    scale: Scale,
    replacements: ReplacementGlyphs,
    // The last text's glyphs, in the buffer in which the next text is shaped.
    buffer: hb_buffer_t,
    segment: Segment,
}

impl Model for Font {
    ghost use Rattle.c_text.specs.Fonts.{KeptFont};

    ghost Value = { KeptFont };

    ghost use Rattle.c_text.specs.Plans.{HasPlansOf};
    ghost use Rattle.std.specs.Prelude.{◌≡◌, false};

    ghost view = { λ f. record { input = f.input; line = f.line; ligatures = f.ligatures; scale = f.scale; replacements = f.replacements; glyphs = f.buffer; segment = f.segment } };

    ghost invariant = { λ f. (HasPlansOf f.input f.plans) × (f.buffer.is_open ≡ false) };
}

impl Font {
    /// Of tables and a font, with the metrics of its lines and the carets of its ligatures; no text was shaped.
    fn new(
        alloc: Global,
        input: Input,
        line: Option<LineSpacing>,
        ligatures: Ligatures,
        scale: Scale,
        replacements: ReplacementGlyphs,
    ) -> Result<Box<Font>, AllocError>
        ensures { IfOk result (λ f. f.value
            ≡ record (new_font input) { line = line; ligatures = ligatures; scale = scale; replacements = replacements }) }
    {
        let font = Font {
            input,
            plans: PlanCache::new(alloc, KEPT_PLANS),
            line,
            ligatures,
            scale,
            replacements,
            buffer: hb_buffer_t::new(alloc),
            segment: NO_SEGMENT,
        };
        let made = Box::new(alloc, font)?;
        Ok(made)
    }

    /// Of tables and a font that is of no font file.
    fn plain(alloc: Global, input: Input) -> Result<Box<Font>, AllocError>
        ensures { IfOk result (λ f. f.value ≡ new_font input) }
    {
        match Ligatures::none(alloc) {
            Ok(ligatures) => Font::new(alloc, input, None, ligatures, NO_SCALE, NO_REPLACEMENTS),
            Err(error) => {
                drop(input);
                Err(error)
            }
        }
    }

    /// Of tables and a font of a font file, whose other parts are read too.
    fn of_file(
        alloc: Global,
        input: Input,
        bytes: &[u8],
        index: usize,
    ) -> Result<Box<Font>, AllocError>
        ensures { IfOk result (λ f. f.value ≡ file_font bytes.now index input) }
    {
        match Ligatures::read(alloc, bytes, index) {
            Ok(ligatures) => {
                Font::new(
                    alloc,
                    input,
                    spacing_in(bytes, index),
                    ligatures,
                    NO_SCALE,
                    NO_REPLACEMENTS,
                )
            }
            Err(error) => {
                drop(input);
                Err(error)
            }
        }
    }

    /// Reads tables and a font.
    #[tactic(auto, using(crate::proofs::Fonts::input_of_font, crate::proofs::Fonts::fault_of_tables, crate::proofs::Fonts::fault_of_font))]
    pub fn read(alloc: Global, tables: &[u8], font: &[u8]) -> Result<Box<Font>, RunFault>
        ensures new { IfOk result (λ f. f.value ≡ new_font f.value.input) }
        ensures ok { IfOk result (λ f. IsInput tables.now font.now (Ok (input_value f.value.input))) }
        ensures refused { IfErr result (λ e. e ≢ RunFault.OutOfMemory → IsInput tables.now font.now (Err e)) }
    {
        let tables = Tables::read(alloc, tables)?;
        let input = Input::read(alloc, tables, font)?;
        let made = Font::plain(alloc, input)?;
        Ok(made)
    }

    /// Reads a font over tables, which it shares.
    pub fn read_over(alloc: Global, tables: &Tables, font: &[u8]) -> Result<Box<Font>, RunFault>
        ensures new { IfOk result (λ f. f.value ≡ new_font f.value.input) }
        ensures tables { IfOk result (λ f. f.value.input.tables ≡ tables.now) }
        ensures ok { IfOk result (λ f. font_in font.now ≡ Ok f.value.input.face) }
        ensures refused { IfErr result (λ e. e ≢ RunFault.OutOfMemory → font_in font.now ≡ Err e) }
    {
        let tables = tables.another()?;
        let input = Input::read(alloc, tables, font)?;
        let made = Font::plain(alloc, input)?;
        Ok(made)
    }

    /// Reads parts of a font of a font file over tables, which it shares.
    pub fn read_file_over(
        alloc: Global,
        tables: &Tables,
        bytes: &[u8],
        index: usize,
        parts: FontParts,
    ) -> Result<Box<Font>, RunFault>
        ensures new { IfOk result (λ f. f.value ≡ file_font bytes.now index f.value.input) }
        ensures tables { IfOk result (λ f. f.value.input.tables ≡ tables.now) }
        ensures ok { IfOk result (λ f. font_of parts bytes.now index ≡ Ok f.value.input.face) }
        ensures refused { IfErr result (λ e. e ≢ RunFault.OutOfMemory → font_of parts bytes.now index ≡ Err e) }
    {
        let tables = tables.another()?;
        let input = Input::read_file(alloc, tables, bytes, index, parts)?;
        let made = Font::of_file(alloc, input, bytes, index)?;
        Ok(made)
    }

    /// Reads parts of a font of a font file, over tables of its own, which are those that the library has.
    #[tactic(auto, using(crate::proofs::Fonts::fault_of_library, crate::proofs::Fonts::fault_of_file))]
    pub fn read_file(
        alloc: Global,
        bytes: &[u8],
        index: usize,
        parts: FontParts,
    ) -> Result<Box<Font>, RunFault>
        ensures new { IfOk result (λ f. f.value ≡ file_font bytes.now index f.value.input) }
        ensures tables { IfOk result (λ f. AreLibraryTables (Ok (tables_value f.value.input.tables))) }
        ensures ok { IfOk result (λ f. font_of parts bytes.now index ≡ Ok f.value.input.face) }
        ensures refused { IfErr result (λ e. e ≢ RunFault.OutOfMemory → IsFaultOfFile parts bytes.now index e) }
    {
        let tables = Tables::library(alloc)?;
        let input = Input::read_file(alloc, tables, bytes, index, parts)?;
        let made = Font::of_file(alloc, input, bytes, index)?;
        Ok(made)
    }

    /// The same font for another handle, which shares what was read, in the same scale and with the same replacements.
    pub fn another(&self, alloc: Global) -> Result<Box<Font>, AllocError>
        ensures { IfOk result (λ f. f.value ≡ without_text self.now) }
    {
        let ligatures = self.ligatures.another()?;
        match self.input.another() {
            Ok(input) => Font::new(
                alloc,
                input,
                self.line,
                ligatures,
                self.scale,
                self.replacements,
            ),
            Err(error) => {
                drop(ligatures);
                Err(error)
            }
        }
    }

    /// Sets advances of glyphs, in the order of the list; answers a status, and changes nothing where it isn't `OK`. Plans
    /// stay: none depends on advances.
    pub fn set_advances(&mut self, given: &[kus_glyph_advance_t]) -> u32
        ensures set { result ≡ 0 → (advances_refusal self.old.input.face given.now ≡ 0)
            × (self.new ≡ font_with_advances given.now self.old) }
        ensures refused { result ≢ 0 → result ≢ 26 → result ≡ advances_refusal self.old.input.face given.now }
        ensures shared { result ≡ 26 → advances_refusal self.old.input.face given.now ≡ 0 }
        ensures kept { result ≢ 0 → self.new ≡ self.old }
    {
        self.input.set_advances(given)
    }

    /// Sets glyphs of characters and of variation sequences, in the order of the list; answers a status. For want of memory
    /// those at the front are set, and where it is any other than `OK` nothing changes. Plans stay: none depends on
    /// characters.
    pub fn set_glyphs(&mut self, alloc: Global, given: &[kus_character_glyph_t]) -> u32
        ensures set { result ≡ 0 → (glyphs_refusal given.now ≡ 0) × (self.new ≡ font_with_glyphs given.now self.old) }
        ensures refused { result ≢ 0 → result ≢ 1 → result ≢ 26 → result ≡ glyphs_refusal given.now }
        ensures shared { result ≡ 26 → glyphs_refusal given.now ≡ 0 }
        ensures memory { result ≡ 1 → (glyphs_refusal given.now ≡ 0)
            × AreSetAtFrontIn given.now self.old (Some self.new) }
        ensures kept { result ≢ 0 → result ≢ 1 → self.new ≡ self.old }
    {
        self.input.set_glyphs(alloc, given)
    }

    /// Sets the glyph of default ignorables, 0 for the font's space, in the texts that are shaped from then on; answers a
    /// status, and changes nothing where it isn't `OK`.
    pub fn set_invisible_glyph(&mut self, glyph: u32) -> u32
        ensures status { result ≡ glyph_status glyph }
        ensures set { result ≡ 0 → self.new ≡ font_with_invisible glyph self.old }
        ensures kept { result ≢ 0 → self.new ≡ self.old }
    {
        let Ok(glyph) = u16::try_from(glyph) else {
            return NO_GLYPH;
        };
        self.replacements.invisible = glyph;
        OK
    }

    /// The same of characters that the font lacks; 0 is theirs at first.
    pub fn set_not_found_glyph(&mut self, glyph: u32) -> u32
        ensures status { result ≡ glyph_status glyph }
        ensures set { result ≡ 0 → self.new ≡ font_with_not_found glyph self.old }
        ensures kept { result ≢ 0 → self.new ≡ self.old }
    {
        let Ok(glyph) = u16::try_from(glyph) else {
            return NO_GLYPH;
        };
        self.replacements.not_found = glyph;
        OK
    }

    /// Sets the scale in which positions are handed out.
    pub fn set_scale(&mut self, scale: Scale)
        ensures { self.new ≡ record self.old { scale = scale } }
    {
        self.scale = scale;
    }

    /// The metrics of a line, where the font was read from a file that gives them.
    pub fn line(&self) -> Option<LineSpacing>
        ensures { result ≡ self.now.line }
    {
        self.line
    }

    /// The ligatures for which the font's file gives carets.
    pub fn ligatures(&self) -> &SortedRows<LigatureCarets>
        ensures { result.now ≡ self.now.ligatures }
    {
        self.ligatures.rows()
    }

    /// The tables and the font.
    pub fn input(&self) -> &Input
        ensures { result.now ≡ self.now.input }
    {
        &self.input
    }

    /// What was read of the font.
    pub fn face(&self) -> &Face
        ensures { result.now ≡ self.now.input.face }
    {
        self.input.face()
    }

    /// Takes the last text's glyphs out, and leaves none.
    pub fn take_glyphs(&mut self, alloc: Global) -> GlyphBuffer
        ensures glyphs { result ≡ self.old.glyphs }
        ensures left { self.new ≡ record self.old { glyphs = empty_buffer } }
    {
        GlyphBuffer::from_buffer(mem::replace(&mut self.buffer, hb_buffer_t::new(alloc)))
    }

    /// Puts the last text's glyphs back.
    pub fn put_glyphs(&mut self, glyphs: GlyphBuffer)
        ensures { self.new ≡ record self.old { glyphs = glyphs } }
    {
        self.buffer = glyphs.into_buffer();
    }

    /// Frees room that the last text's glyphs don't need, as that of longer texts before it. It changes nothing that is seen.
    pub fn shrink_to_fit(&mut self)
        ensures { self.new ≡ self.old }
    {
        self.buffer.shrink_to_fit();
    }

    /// Writes the slices of the last text, as many as there is room for, and how many there are; answers a status.
    #[tactic(auto, using(crate::proofs::Slices::glyphs_put_back, crate::proofs::Slices::slices_of_taken, crate::proofs::Slices::taken_refuse_slices))]
    pub fn write_slices(
        &mut self,
        alloc: Global,
        text: &[u8],
        slices: &mut [kus_slice_t],
        count: &mut usize,
    ) -> u32
        requires { count.old ≡ 0 }
        ensures same { self.new ≡ self.old }
        ensures slices { result ≡ 0 → AreSlicesOf self.old.glyphs text.now slices.old slices.new count.new }
        ensures refused { result ≢ 0 → result ≢ 1 → IsSlicesRefusal self.old.glyphs text.now result }
        ensures none { result ≢ 0 → (count.new ≡ 0) × (slices.new ≡ slices.old) }
    {
        let glyphs = self.take_glyphs(alloc);
        let status = write_slices(alloc, &glyphs, text, slices, count);
        self.put_glyphs(glyphs);
        status
    }

    /// The direction and the script by which the last text was shaped.
    pub fn segment(&self) -> Segment
        ensures { result ≡ self.now.segment }
    {
        self.segment
    }

    /// Shapes a text, whose glyphs are then the last ones; on a fault there are none.
    pub fn shape(&mut self, alloc: Global, text: &kus_text_t<'_>) -> Result<(), RunFault>
        ensures rest { without_text self.new ≡ without_text self.old }
        ensures ok { OnOk result (AreGlyphsOf self.new.input self.new.replacements text.now self.new.glyphs) }
        ensures segment { OnOk result (HasSegmentOf text.now self.new.segment) }
        ensures none { OnErr result (self.new ≡ without_text self.old) }
        ensures refused { IfErr result
            (λ e. e ≢ RunFault.OutOfMemory → IsFaultOf self.old.input self.old.replacements text.now e) }
    {
        self.segment = NO_SEGMENT;
        let by = self.replacements;
        self.segment = shape_into(
            alloc,
            &self.input,
            &mut self.plans,
            by,
            &mut self.buffer,
            text,
        )?;
        Ok(())
    }

    /// Writes the last text's glyphs and their positions, as many as there is room for; answers how many there are.
    pub fn write_glyphs(
        &self,
        infos: &mut [kus_glyph_info_t],
        positions: &mut [kus_glyph_position_t],
    ) -> usize
        ensures count { result ≡ length (all_glyphs self.now.glyphs) }
        ensures infos { infos.new ≡ with_front (map info_of (all_glyphs self.now.glyphs)) infos.old }
        ensures positions { positions.new ≡ with_front (positions_in self.now) positions.old }
    {
        write_front(self.buffer.info_slice(), infos);
        self.write_positions(positions);
        self.buffer.len()
    }

    /// Writes the positions of the last text's glyphs, in the scale where one is set.
    fn write_positions(&self, positions: &mut [kus_glyph_position_t])
        ensures { positions.new ≡ with_front (positions_in self.now) positions.old }
    {
        let placed = self.buffer.pos_slice();
        if !self.scale.is_set() {
            write_front(placed, positions);
            return;
        }
        let by = self.scale.multipliers(self.input.face().parts().upem);
        write_scaled(by, self.buffer.info_slice(), placed, positions);
    }
}

/// Shapes a text in the storage of the glyphs before it; answers by which direction and script.
fn shape_into(
    alloc: Global,
    input: &Input,
    plans: &mut PlanCache,
    replacements: ReplacementGlyphs,
    buffer: &mut hb_buffer_t,
    text: &kus_text_t<'_>,
) -> Result<Segment, RunFault>
    requires { HasPlansOf input.now plans.old }
    ensures plans { HasPlansOf input.now plans.new }
    ensures ok { OnOk result (AreGlyphsOf input.now replacements text.now buffer.new) }
    ensures segment { IfOk result (HasSegmentOf text.now) }
    ensures none { OnErr result (buffer.new ≡ empty_buffer) }
    ensures refused { IfErr result (λ e. e ≢ RunFault.OutOfMemory → IsFaultOf input.now replacements text.now e) }
    ensures closed { buffer.new.is_open ≡ false }
{
    buffer.clear();
    match shape_text(alloc, input, plans, replacements, text, buffer) {
        Ok(segment) => Ok(segment),
        Err(fault) => {
            buffer.clear();
            Err(fault)
        }
    }
}

/// Shapes a text in an empty buffer.
#[tactic(auto, using(crate::proofs::Fonts::glyphs_of_text, crate::proofs::Fonts::segment_of_text, crate::proofs::Fonts::fault_of_bytes, crate::proofs::Fonts::fault_of_reading))]
fn shape_text(
    alloc: Global,
    input: &Input,
    plans: &mut PlanCache,
    replacements: ReplacementGlyphs,
    text: &kus_text_t<'_>,
    buffer: &mut hb_buffer_t,
) -> Result<Segment, RunFault>
    requires plans { HasPlansOf input.now plans.old }
    requires empty { buffer.old ≡ empty_buffer }
    ensures plans { HasPlansOf input.now plans.new }
    ensures ok { OnOk result (AreGlyphsOf input.now replacements text.now buffer.new) }
    ensures segment { IfOk result (HasSegmentOf text.now) }
    ensures refused { IfErr result (λ e. e ≢ RunFault.OutOfMemory → IsFaultOf input.now replacements text.now e) }
    ensures closed { OnOk result (buffer.new.is_open ≡ false) }
{
    let features = features_of(alloc, text)?;
    put_text(alloc, text, buffer)?;
    put_replacements(replacements, buffer);
    shape_kept(alloc, input, plans, &features, buffer)?;
    Ok(segment_of(buffer))
}

fn is_send<T: Send>(_value: &T) {}

/// A font may be moved to another thread.
pub fn law_fonts_cross_threads(font: &Font) {
    is_send(font);
}
