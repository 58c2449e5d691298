//! Reads the tables of a run.
ghost use Rattle.std.specs.Prelude.{◌≡◌, ◌≢◌, Ok, Err, IfOk, IfErr, OnOk};
ghost use Rattle.serde_json.specs.View.{view};
ghost use Rattle.shell_tables_json.specs.Languages.{languages_in};
ghost use Rattle.buffer_unicode_tables.specs.Lawful.{IsLawful};
ghost use Rattle.buffer_unicode_tables.specs.Tables.{Tables};
ghost use Rattle.shell_readers.specs.Faults.{IsOfRun};
ghost use Rattle.shell_readers.specs.Tables.{AreLawfulTables, AreTables, IsValueOf, tables_value, with_rest};

use crate::fault::RunFault;
use crate::values::read_json;
use buffer_tags::language_table::LanguageTable;
use buffer_unicode_tables::UnicodeTables;
use script_categories::SyllableTable;
use serde_json::Value;
use shell_json::fault::JsonFault;
use shell_tables_json::{read_languages, read_syllables, read_tables};
use std::alloc::Global;

/// The tables that shaping depends on, beside the font.
#[derive(Drop)]
pub struct TextTables {
    /// The tables of characters.
    pub characters: UnicodeTables,
    /// The machines that find syllables.
    pub syllables: SyllableTable,
    /// The languages with their OpenType tags.
    pub languages: LanguageTable,
}

/// The tables other than those of characters.
#[derive(Drop)]
struct OtherTables {
    syllables: SyllableTable,
    languages: LanguageTable,
}

/// Reads the machines of syllables, then the languages.
fn read_other_tables(alloc: Global, value: &Value) -> Result<OtherTables, JsonFault>
    ensures ok { IfOk result (λ o. (t : Tables) → with_rest t (view value.now)
        ≡ Ok (record { characters = t; syllables = o.syllables; languages = languages_in o.languages })) }
    ensures refused { IfErr result (λ e. e ≢ JsonFault.OutOfMemory
        → (t : Tables) → with_rest t (view value.now) ≡ Err e) }
{
    let syllables = read_syllables(alloc, value)?;
    let languages = read_languages(alloc, value)?;
    Ok(OtherTables {
        syllables,
        languages,
    })
}

/// Reads the tables of characters, then the others.
fn read_all_tables(alloc: Global, value: &Value) -> Result<TextTables, JsonFault>
    ensures ok { IfOk result (λ t. IsValueOf (view value.now) (Ok (tables_value t))) }
    ensures refused { IfErr result (λ e. e ≢ JsonFault.OutOfMemory → IsValueOf (view value.now) (Err e)) }
{
    let characters = read_tables(alloc, value)?;
    match read_other_tables(alloc, value) {
        Ok(others) => Ok(TextTables {
            characters,
            syllables: others.syllables,
            languages: others.languages,
        }),
        Err(fault) => {
            // In one step, as where the font is refused (`read_input`).
            drop(characters);
            Err(fault)
        }
    }
}

/// The tables of bytes.
#[tactic(auto, using(crate::proofs::Reading::tables_read, crate::proofs::Reading::tables_refused, crate::proofs::Reading::value_refused))]
pub fn tables_in(alloc: Global, bytes: &[u8]) -> Result<TextTables, RunFault>
    ensures ok { IfOk result (λ t. AreTables bytes.now (Ok (tables_value t))) }
    ensures refused { IfErr result (λ e. e ≢ RunFault.OutOfMemory → AreTables bytes.now (Err e)) }
    ensures kind { IfErr result IsOfRun }
{
    let value = read_json(alloc, bytes)?;
    let tables = read_all_tables(alloc, &value)?;
    Ok(tables)
}

/// Refuses tables with which equivalent texts would be shaped differently.
fn check_laws(tables: &UnicodeTables) -> Result<(), RunFault>
    ensures lawful { OnOk result (IsLawful tables.now) }
    ensures unlawful { IfErr result (λ e. (e ≡ RunFault.Unlawful) × (¬ IsLawful tables.now)) }
{
    match tables.law_fault() {
        None => Ok(()),
        Some(_) => Err(RunFault::Unlawful),
    }
}

/// The tables of bytes, which must be lawful.
///
/// # Errors
///
/// The first fault of their format, then `Unlawful`; or lack of memory.
pub fn read_lawful_tables(alloc: Global, bytes: &[u8]) -> Result<TextTables, RunFault>
    ensures ok { IfOk result (λ t. AreLawfulTables bytes.now (Ok (tables_value t))) }
    ensures refused { IfErr result (λ e. e ≢ RunFault.OutOfMemory → AreLawfulTables bytes.now (Err e)) }
    ensures kind { IfErr result IsOfRun }
{
    let tables = tables_in(alloc, bytes)?;
    match check_laws(&tables.characters) {
        Ok(()) => Ok(tables),
        Err(fault) => {
            // In one step, as where the font is refused (`read_input`).
            drop(tables);
            Err(fault)
        }
    }
}
