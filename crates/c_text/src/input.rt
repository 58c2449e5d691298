//! What fonts are made of: tables, which several fonts may share, and what was read of a font, which its handles share.
ghost use Rattle.std.specs.Prelude.{◌≡◌, ◌≢◌, IfErr, IfOk, Ok, Err};
ghost use Rattle.shell_fonts.specs.Fonts.{AreLibraryTables, font_of};
ghost use Rattle.shell_readers.specs.Input.{font_in};
ghost use Rattle.shell_readers.specs.Tables.{AreLawfulTables, tables_value};
ghost use Rattle.c_text.specs.Advances.{advances_refusal, with_advances};
ghost use Rattle.c_text.specs.CharacterGlyphs.{AreSetAtFront, glyphs_refusal, with_glyphs};

use crate::advances::{advances_refusal, set_own_advances};
use crate::character_glyphs::{glyphs_refusal, set_own_glyphs};
use crate::numbers::{OK, OUT_OF_MEMORY, SHARED_FONT};
use crate::types::{kus_character_glyph_t, kus_glyph_advance_t};
use buffer_tags::language_table::LanguageTable;
use font_file::FontParts;
use layout_face::Face;
use script_categories::SyllableTable;
use shape_pipeline::hb_shape_data_t;
use shell_fonts::{library_tables, read_font_of};
use shell_readers::fault::RunFault;
use shell_readers::input::read_font;
use shell_readers::tables::{TextTables, read_lawful_tables};
use std::alloc::{AllocError, Global};
use std::marker::Model;
use std::sync::Arc;

/// Lawful tables, which fonts share.
#[derive(Drop)]
pub struct Tables {
    tables: Arc<TextTables, Global>,
}

impl Model for Tables {
    ghost use Rattle.std.specs.Arc.{arc_value};
    ghost use Rattle.shell_readers.specs.declared.tables.TextTables.{TextTables};

    ghost Value = { TextTables };

    ghost view = { λ t. arc_value t.tables };
}

impl Tables {
    /// Reads tables, which must be lawful.
    pub fn read(alloc: Global, bytes: &[u8]) -> Result<Tables, RunFault>
        ensures ok { IfOk result (λ t. AreLawfulTables bytes.now (Ok (tables_value t))) }
        ensures refused { IfErr result (λ e. e ≢ RunFault.OutOfMemory → AreLawfulTables bytes.now (Err e)) }
    {
        let tables = read_lawful_tables(alloc, bytes)?;
        let tables = Arc::new(alloc, tables)?;
        Ok(Tables { tables })
    }

    /// The tables that the library has.
    pub fn library(alloc: Global) -> Result<Tables, RunFault>
        ensures ok { IfOk result (λ t. AreLibraryTables (Ok (tables_value t))) }
        ensures refused { IfErr result (λ e. e ≢ RunFault.OutOfMemory → AreLibraryTables (Err e)) }
    {
        let tables = library_tables(alloc)?;
        let tables = Arc::new(alloc, tables)?;
        Ok(Tables { tables })
    }

    /// The same tables once more.
    pub fn another(&self) -> Result<Tables, AllocError>
        ensures { IfOk result (λ t. t ≡ self.now) }
    {
        let tables = Arc::try_clone(&self.tables)?;
        Ok(Tables { tables })
    }
}

/// Tables and a font.
#[derive(Drop)]
pub struct Input {
    tables: Tables,
    face: Arc<Face, Global>,
}

impl Model for Input {
    ghost use Rattle.std.specs.Arc.{arc_value};
    ghost use Rattle.shell_readers.specs.declared.input.RunInput.{RunInput};

    ghost Value = { RunInput };

    ghost view = { λ i. record { tables = i.tables; face = arc_value i.face } };
}

impl Input {
    /// Reads a font over tables.
    pub fn read(alloc: Global, tables: Tables, font: &[u8]) -> Result<Input, RunFault>
        ensures tables { IfOk result (λ i. i.tables ≡ tables) }
        ensures ok { IfOk result (λ i. font_in font.now ≡ Ok i.face) }
        ensures refused { IfErr result (λ e. e ≢ RunFault.OutOfMemory → font_in font.now ≡ Err e) }
    {
        let face = read_font(alloc, font)?;
        let face = Arc::new(alloc, face)?;
        Ok(Input { tables, face })
    }

    /// Reads parts of a font of a font file over tables.
    pub fn read_file(
        alloc: Global,
        tables: Tables,
        bytes: &[u8],
        index: usize,
        parts: FontParts,
    ) -> Result<Input, RunFault>
        ensures tables { IfOk result (λ i. i.tables ≡ tables) }
        ensures ok { IfOk result (λ i. font_of parts bytes.now index ≡ Ok i.face) }
        ensures refused { IfErr result (λ e. e ≢ RunFault.OutOfMemory → font_of parts bytes.now index ≡ Err e) }
    {
        let face = read_font_of(alloc, bytes, index, parts)?;
        let face = Arc::new(alloc, face)?;
        Ok(Input { tables, face })
    }

    /// The same tables and font once more.
    pub fn another(&self) -> Result<Input, AllocError>
        ensures { IfOk result (λ i. i ≡ self.now) }
    {
        let tables = self.tables.another()?;
        let face = Arc::try_clone(&self.face)?;
        Ok(Input { tables, face })
    }

    /// The font.
    pub fn face(&self) -> &Face
        ensures { result.now ≡ self.now.face }
    {
        &self.face
    }

    /// Sets advances of glyphs, in the order of the list; answers a status, and changes nothing where it isn't `OK`.
    pub fn set_advances(&mut self, given: &[kus_glyph_advance_t]) -> u32
        ensures set { result ≡ 0 → (advances_refusal self.old.face given.now ≡ 0)
            × (self.new ≡ record self.old { face = with_advances given.now self.old.face }) }
        ensures refused { result ≢ 0 → result ≢ 26 → result ≡ advances_refusal self.old.face given.now }
        ensures shared { result ≡ 26 → advances_refusal self.old.face given.now ≡ 0 }
        ensures kept { result ≢ 0 → self.new ≡ self.old }
    {
        let refusal = advances_refusal(&self.face, given);
        if refusal != OK {
            return refusal;
        }
        if !set_own_advances(&mut self.face, given) {
            return SHARED_FONT;
        }
        OK
    }

    /// Sets glyphs of characters and of variation sequences, in the order of the list; answers a status. For want of memory
    /// those at the front are set, and where it is any other than `OK` nothing changes.
    pub fn set_glyphs(&mut self, alloc: Global, given: &[kus_character_glyph_t]) -> u32
        ensures set { result ≡ 0 → (glyphs_refusal given.now ≡ 0)
            × (self.new ≡ record self.old { face = with_glyphs given.now self.old.face }) }
        ensures refused { result ≢ 0 → result ≢ 1 → result ≢ 26 → result ≡ glyphs_refusal given.now }
        ensures shared { result ≡ 26 → glyphs_refusal given.now ≡ 0 }
        ensures memory { result ≡ 1 → (glyphs_refusal given.now ≡ 0) × AreSetAtFront given.now self.old.face self.new.face }
        ensures tables { self.new ≡ record self.old { face = self.new.face } }
        ensures kept { result ≢ 0 → result ≢ 1 → self.new ≡ self.old }
    {
        let refusal = glyphs_refusal(given);
        if refusal != OK {
            return refusal;
        }
        match set_own_glyphs(alloc, &mut self.face, given) {
            Ok(true) => OK,
            Ok(false) => SHARED_FONT,
            Err(_) => OUT_OF_MEMORY,
        }
    }

    /// The tables by which texts are shaped.
    pub fn data(&self) -> hb_shape_data_t<'_, SyllableTable, LanguageTable>
        ensures tables { result.tables.now ≡ self.now.tables.characters }
        ensures spans { result.spans.now ≡ self.now.tables.syllables }
        ensures languages { result.languages.now ≡ self.now.tables.languages }
    {
        let tables: &TextTables = &self.tables.tables;
        hb_shape_data_t {
            tables: &tables.characters,
            spans: &tables.syllables,
            languages: &tables.languages,
        }
    }
}

fn is_send<T: Send>(_value: &T) {}

fn is_sync<T: Sync>() {}

/// Tables and fonts may be moved to another thread, and threads may share what was read.
pub fn law_inputs_cross_threads(input: &Input) {
    is_send(input);
    is_sync::<TextTables>();
    is_sync::<Face>();
}
