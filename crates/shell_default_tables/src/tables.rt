//! The default tables.
ghost use Rattle.std.specs.Prelude.{◌≡◌, ◌≢◌, ◌≤◌, IfOk, IfErr, OnOk, Ok, Err, length};
ghost use Rattle.buffer_unicode_tables.specs.Lawful.{IsLawful};
ghost use Rattle.buffer_unicode_tables.specs.Tables.{Tables};
ghost use Rattle.shell_tables_bytes.specs.Languages.{languages_in};
ghost use Rattle.shell_default_tables.specs.Binary.{IsFaultOf, IsRefusalOf, binary_tables, sections_of, value_of_tables, with_rest};

use crate::bytes::TABLES;
use buffer_tags::language_table::LanguageTable;
use buffer_unicode_tables::UnicodeTables;
use font_bytes::words::fits;
use script_categories::SyllableTable;
use shell_tables_bytes::{BinaryFault, HEADER, read_characters, read_languages, read_syllables};
use std::alloc::Global;

/// The tables that shaping depends on, beside the font.
#[derive(Drop)]
pub struct DefaultTables {
    /// The tables of characters.
    pub characters: UnicodeTables,
    /// The machines that find syllables.
    pub syllables: SyllableTable,
    /// The languages with their OpenType tags.
    pub languages: LanguageTable,
}

/// The tables of Unicode 15.0 that the library has: the rows of `data/tables.json`. They are lawful.
///
/// # Errors
///
/// Lack of memory. The other faults are of bytes that the library doesn't have: that of a row, of a chain of decompositions,
/// or of a law.
pub fn default_tables(alloc: Global) -> Result<DefaultTables, BinaryFault>
    ensures ok { IfOk result (λ t. binary_tables TABLES.now ≡ Ok (value_of_tables t)) }
    ensures lawful { IfOk result (λ t. IsLawful t.characters) }
    ensures refused { IfErr result (λ e. e ≢ BinaryFault.OutOfMemory → IsRefusalOf TABLES.now e) }
{
    read_lawful_tables(alloc, TABLES)
}

/// The tables of bytes, which must be lawful.
#[tactic(auto, using(crate::proofs::Refused::fault_refused, crate::proofs::Refused::laws_refused))]
fn read_lawful_tables(alloc: Global, bytes: &[u8]) -> Result<DefaultTables, BinaryFault>
    ensures ok { IfOk result (λ t. binary_tables bytes.now ≡ Ok (value_of_tables t)) }
    ensures lawful { IfOk result (λ t. IsLawful t.characters) }
    ensures refused { IfErr result (λ e. e ≢ BinaryFault.OutOfMemory → IsRefusalOf bytes.now e) }
{
    let tables = read_tables(alloc, bytes)?;
    match check_laws(&tables.characters) {
        Ok(()) => Ok(tables),
        Err(fault) => {
            // In one step: left to the end of the function, each of their lists is a step of its proof.
            drop(tables);
            Err(fault)
        }
    }
}

/// Refuses tables with which equivalent texts would be shaped differently.
fn check_laws(tables: &UnicodeTables) -> Result<(), BinaryFault>
    ensures lawful { OnOk result (IsLawful tables.now) }
    ensures unlawful { IfErr result (λ e. (e ≡ BinaryFault.Unlawful) × (¬ IsLawful tables.now)) }
{
    match tables.law_fault() {
        None => Ok(()),
        Some(_) => Err(BinaryFault::Unlawful),
    }
}

/// The tables of bytes, lawful or not.
#[tactic(auto, unfolding(crate::specs::Binary::binary_tables))]
fn read_tables(alloc: Global, bytes: &[u8]) -> Result<DefaultTables, BinaryFault>
    ensures ok { IfOk result (λ t. binary_tables bytes.now ≡ Ok (value_of_tables t)) }
    ensures refused { IfErr result (λ e. e ≢ BinaryFault.OutOfMemory → IsFaultOf bytes.now (binary_tables bytes.now) e) }
{
    if !fits(bytes, 0, HEADER) {
        return Err(BinaryFault::Short);
    }
    read_sections(alloc, bytes)
}

/// The sections after a whole header.
#[tactic(auto, using(crate::proofs::Refused::rows_refused, crate::proofs::Refused::rest_refused))]
fn read_sections(alloc: Global, bytes: &[u8]) -> Result<DefaultTables, BinaryFault>
    requires { HEADER ≤ length bytes.now }
    ensures ok { IfOk result (λ t. sections_of bytes.now ≡ Ok (value_of_tables t)) }
    ensures refused { IfErr result (λ e. e ≢ BinaryFault.OutOfMemory → IsFaultOf bytes.now (sections_of bytes.now) e) }
{
    let characters = read_characters(alloc, bytes)?;
    match read_other_tables(alloc, bytes) {
        Ok(others) => Ok(DefaultTables {
            characters,
            syllables: others.syllables,
            languages: others.languages,
        }),
        Err(fault) => {
            // In one step, as above.
            drop(characters);
            Err(fault)
        }
    }
}

/// The tables other than those of characters.
#[derive(Drop)]
struct OtherTables {
    syllables: SyllableTable,
    languages: LanguageTable,
}

/// Reads the machines of syllables, then the languages.
fn read_other_tables(alloc: Global, bytes: &[u8]) -> Result<OtherTables, BinaryFault>
    requires { HEADER ≤ length bytes.now }
    ensures ok { IfOk result (λ o. (t : Tables) → with_rest t bytes.now
        ≡ Ok (record { characters = t; syllables = o.syllables; languages = languages_in o.languages })) }
    ensures refused { IfErr result (λ e. e ≢ BinaryFault.OutOfMemory
        → (t : Tables) → with_rest t bytes.now ≡ Err e) }
{
    let syllables = read_syllables(alloc, bytes)?;
    let languages = read_languages(alloc, bytes)?;
    Ok(OtherTables {
        syllables,
        languages,
    })
}
