//! Reads a font file for a run.
ghost use Rattle.std.specs.Prelude.{◌≡◌, ◌≢◌, Ok, Err, IfOk, IfErr};
ghost use Rattle.shell_default_tables.specs.Binary.{value_of_tables};
ghost use Rattle.shell_readers.specs.Faults.{IsOfRun};
ghost use Rattle.shell_readers.specs.Input.{input_value};
ghost use Rattle.shell_readers.specs.Tables.{tables_value};
ghost use Rattle.shell_fonts.specs.Fonts.{AreLibraryTables, IsFontInput, font_of, run_tables};

use font_file::{FontParts, read_font};
use layout_face::Face;
use shell_default_tables::{BinaryFault, DefaultTables, default_tables};
use shell_readers::fault::RunFault;
use shell_readers::input::RunInput;
use shell_readers::tables::TextTables;
use std::alloc::Global;

/// The tables of characters, syllables and languages that the library has: those of Unicode 15.0.
///
/// # Errors
///
/// Lack of memory. `Unlawful` is of bytes that the library doesn't have: refused ones, or ones that break a law.
#[tactic(auto, using(crate::proofs::Reading::library_refused))]
pub fn library_tables(alloc: Global) -> Result<TextTables, RunFault>
    ensures ok { IfOk result (λ t. AreLibraryTables (Ok (tables_value t))) }
    ensures refused { IfErr result (λ e. e ≢ RunFault.OutOfMemory → AreLibraryTables (Err e)) }
    ensures kind { IfErr result IsOfRun }
{
    match default_tables(alloc) {
        Ok(tables) => Ok(text_tables(tables)),
        Err(BinaryFault::OutOfMemory) => Err(RunFault::OutOfMemory),
        Err(_) => Err(RunFault::Unlawful),
    }
}

/// The library's tables as those of a run.
fn text_tables(tables: DefaultTables) -> TextTables
    ensures value { tables_value result ≡ run_tables (value_of_tables tables) }
    ensures characters { result.characters ≡ tables.characters }
{
    TextTables {
        characters: tables.characters,
        syllables: tables.syllables,
        languages: tables.languages,
    }
}

/// Reads parts of the font with an index of a font file.
///
/// # Errors
///
/// The first fault of the font file, or lack of memory.
pub fn read_font_of(
    alloc: Global,
    bytes: &[u8],
    index: usize,
    parts: FontParts,
) -> Result<Face, RunFault>
    ensures ok { IfOk result (λ face. font_of parts bytes.now index ≡ Ok face) }
    ensures refused { IfErr result (λ e. e ≢ RunFault.OutOfMemory → font_of parts bytes.now index ≡ Err e) }
    ensures kind { IfErr result IsOfRun }
{
    match read_font(alloc, bytes, index, parts) {
        Ok(face) => Ok(face),
        Err(fault) => Err(RunFault::from(fault)),
    }
}

/// Reads parts of the font with an index of a font file, over the tables that the library has.
///
/// # Errors
///
/// The first fault of the font file, or lack of memory.
pub fn read_font_input(
    alloc: Global,
    bytes: &[u8],
    index: usize,
    parts: FontParts,
) -> Result<RunInput, RunFault>
    ensures ok { IfOk result (λ input. IsFontInput parts bytes.now index (Ok (input_value input))) }
    ensures refused { IfErr result (λ e. e ≢ RunFault.OutOfMemory → IsFontInput parts bytes.now index (Err e)) }
    ensures kind { IfErr result IsOfRun }
{
    let tables = library_tables(alloc)?;
    match read_font_of(alloc, bytes, index, parts) {
        Ok(face) => Ok(RunInput { tables, face }),
        Err(fault) => {
            // In one step: left to the end of the function, each of their lists is a step of its proof.
            drop(tables);
            Err(fault)
        }
    }
}
