//! The tables of characters in binary form.
ghost use Rattle.std.specs.Prelude.{◌≡◌, ◌≢◌, ◌≤◌, IfOk, IfErr, Ok, Err, length};
ghost use Rattle.buffer_unicode_tables.specs.Expansion.{HasDeepChain};
ghost use Rattle.buffer_unicode_tables.specs.Tables.{split_of, tables_of};
ghost use Rattle.shell_tables_bytes.specs.Characters.{AreDeep, character_rows, characters_of};

use crate::fault::BinaryFault;
use crate::records::{IndicRecords, ThaiRecords, ThreeCharacters, TwoCharacters};
use crate::runs::read_runs;
use crate::sections::{HEADER, read_section};
use buffer_unicode::{TablesFault, UnicodeRows};
use buffer_unicode_tables::UnicodeTables;
use std::alloc::Global;

/// The tables of characters.
pub fn read_characters(alloc: Global, bytes: &[u8]) -> Result<UnicodeTables, BinaryFault>
    requires { HEADER ≤ length bytes.now }
    ensures ok { IfOk result (λ t. characters_of bytes.now ≡ Ok t) }
    ensures refused { IfErr result (λ e. e ≢ BinaryFault.OutOfMemory → e ≢ BinaryFault.Rows TablesFault.SplitDepth
        → characters_of bytes.now ≡ Err e) }
    ensures deep { result ≡ Err (BinaryFault.Rows TablesFault.SplitDepth) → AreDeep bytes.now }
{
    let rows = read_character_rows(alloc, bytes)?;
    let tables = UnicodeTables::new(alloc, &rows)?;
    Ok(tables)
}

/// The rows of all tables of characters.
fn read_character_rows(alloc: Global, bytes: &[u8]) -> Result<UnicodeRows, BinaryFault>
    requires { HEADER ≤ length bytes.now }
    ensures ok { IfOk result (λ rows. character_rows bytes.now ≡ Ok (tables_of rows)) }
    ensures refused { IfErr result (λ e. e ≢ BinaryFault.OutOfMemory → character_rows bytes.now ≡ Err e) }
{
    Ok(UnicodeRows {
        splits: read_section(alloc, bytes, 0, ThreeCharacters)?,
        pairs: read_section(alloc, bytes, 1, ThreeCharacters)?,
        classes: read_runs(alloc, bytes, 2)?,
        mirrored: read_section(alloc, bytes, 3, TwoCharacters)?,
        vertical: read_section(alloc, bytes, 4, TwoCharacters)?,
        pictographic: read_section(alloc, bytes, 5, TwoCharacters)?,
        joining: read_runs(alloc, bytes, 6)?,
        indic: read_section(alloc, bytes, 7, IndicRecords)?,
        universal: read_runs(alloc, bytes, 8)?,
        thai: read_section(alloc, bytes, 9, ThaiRecords)?,
    })
}
