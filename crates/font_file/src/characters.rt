//! The glyphs of characters, and of characters with variation selectors.
ghost use Rattle.std.specs.Prelude.{◌≡◌, ◌≢◌, IfOk, IfErr, Ok, Err, []};
ghost use Rattle.font_bytes.specs.declared.fault.TableFault.{TableFault};
ghost use Rattle.font_file.specs.Characters.{characters_in, rows_of_table};

use crate::found::table_in;
use crate::outlines::FontFile;
use crate::rooms::CHARACTER_ROOM;
use buffer_rows::{PagedRows, SortedRows};
use font_bytes::fault::TableFault;
use font_bytes::{FontFault, FontTable};
use font_cmap::{read_characters, read_variations};
use layout_face::parts::{CharacterRow, VariationRow};
use std::alloc::Global;

pub(crate) type Characters = (PagedRows<CharacterRow>, SortedRows<VariationRow>);

/// The rows of a table.
fn rows_of_table(alloc: Global, table: &[u8]) -> Result<Characters, TableFault>
    ensures ok { IfOk result (λ c. rows_of_table table.now ≡ Ok (c.0, c.1)) }
    ensures refused { IfErr result (λ e. e ≢ TableFault.OutOfMemory → rows_of_table table.now ≡ Err e) }
{
    let mut room = CHARACTER_ROOM;
    let rows = read_characters(alloc, table, &mut room)?;
    match read_variations(alloc, table, &rows, &mut room) {
        Ok(variants) => Ok((rows, variants)),
        Err(fault) => {
            drop(rows);
            Err(fault)
        }
    }
}

/// The rows of a font without the table.
fn no_rows(alloc: Global) -> Result<Characters, FontFault>
    ensures ok { IfOk result (λ c. (c.0 ≡ []) × (c.1 ≡ [])) }
    ensures refused { IfErr result (λ e. e.cause ≡ TableFault.OutOfMemory) }
{
    let rows = PagedRows::new(alloc, Vec::new(alloc))?;
    Ok((rows, SortedRows::new(Vec::new(alloc))))
}

/// The characters of a font.
pub(crate) fn characters_in(alloc: Global, file: FontFile<'_>) -> Result<Characters, FontFault>
    ensures ok { IfOk result (λ c. characters_in file.entry.bytes.now file.entry.index ≡ Ok (c.0, c.1)) }
    ensures refused { IfErr result (λ e. e.cause ≢ TableFault.OutOfMemory
        → characters_in file.entry.bytes.now file.entry.index ≡ Err e) }
{
    match table_in(file.bytes, file.index, FontTable::Cmap)? {
        Some(table) => match rows_of_table(alloc, table) {
            Ok(rows) => Ok(rows),
            Err(cause) => Err(FontFault {
                table: Some(FontTable::Cmap),
                cause,
            }),
        },
        None => no_rows(alloc),
    }
}
