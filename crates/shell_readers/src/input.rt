//! Reads tables and a font, in this order.
ghost use Rattle.std.specs.Prelude.{◌≡◌, ◌≢◌, Ok, Err, IfOk, IfErr};
ghost use Rattle.shell_readers.specs.Faults.{IsOfRun};
ghost use Rattle.shell_readers.specs.Input.{IsInput, font_in, input_value};

use crate::fault::RunFault;
use crate::tables::{TextTables, read_lawful_tables};
use crate::values::utf8;
use layout_face::Face;
use shell_face_json::read_face_text;
use shell_json::fault::JsonFault;
use std::alloc::Global;

/// The tables and the font of a run.
#[derive(Drop)]
pub struct RunInput {
    /// The tables of characters, syllables and languages.
    pub tables: TextTables,
    /// The font.
    pub face: Face,
}

/// The font of bytes.
///
/// # Errors
///
/// The first fault of its format, or lack of memory.
#[tactic(auto, using(crate::proofs::Fonts::font_of_text, crate::proofs::Fonts::no_font), unfolding(crate::specs::Input::font_in))]
pub fn read_font(alloc: Global, bytes: &[u8]) -> Result<Face, RunFault>
    ensures ok { IfOk result (λ face. font_in bytes.now ≡ Ok face) }
    ensures refused { IfErr result (λ e. e ≢ RunFault.OutOfMemory → font_in bytes.now ≡ Err e) }
    ensures kind { IfErr result IsOfRun }
{
    let Some(text) = utf8(bytes) else {
        return Err(RunFault::Json(JsonFault::NotJson));
    };
    let face = read_face_text(alloc, text)?;
    Ok(face)
}

/// Reads tables and a font. The tables must be lawful before the font is read; the first fault is returned: one of the
/// tables' format, `Unlawful`, or one of the font's format.
pub fn read_input(alloc: Global, tables: &[u8], font: &[u8]) -> Result<RunInput, RunFault>
    ensures ok { IfOk result (λ input. IsInput tables.now font.now (Ok (input_value input))) }
    ensures refused { IfErr result (λ e. e ≢ RunFault.OutOfMemory → IsInput tables.now font.now (Err e)) }
    ensures kind { IfErr result IsOfRun }
{
    let tables = read_lawful_tables(alloc, tables)?;
    match read_font(alloc, font) {
        Ok(face) => Ok(RunInput { tables, face }),
        Err(fault) => {
            // In one step: left to the end of the function, each of their lists is a step of its proof.
            drop(tables);
            Err(fault)
        }
    }
}
