//! The bytes of a font's tables.
ghost use Rattle.std.specs.Prelude.{◌≡◌, IfOk, IfErr, Ok, Err};
ghost use Rattle.std.specs.Option.{option_copied};
ghost use Rattle.font_file.specs.Found.{required_table, table_in};

use font_bytes::directory::font_table;
use font_bytes::fault::TableFault;
use font_bytes::{FontFault, FontTable};

/// The bytes of a table of the font with an index, none where it has no such table.
pub(crate) fn table_in(
    bytes: &[u8],
    index: usize,
    table: FontTable,
) -> Result<Option<&[u8]>, FontFault>
    ensures ok { IfOk result (λ o. table_in bytes.entry.now index table ≡ Ok (option_copied o)) }
    ensures refused { IfErr result (λ e. table_in bytes.entry.now index table ≡ Err e) }
{
    match font_table(bytes, index, table.tag()) {
        Ok(found) => Ok(found),
        Err(cause) => Err(FontFault { table: None, cause }),
    }
}

/// The bytes of a table that a font has to have.
pub(crate) fn required_table(
    bytes: &[u8],
    index: usize,
    table: FontTable,
) -> Result<&[u8], FontFault>
    ensures ok { IfOk result (λ t. required_table bytes.entry.now index table ≡ Ok t.now) }
    ensures refused { IfErr result (λ e. required_table bytes.entry.now index table ≡ Err e) }
{
    match table_in(bytes, index, table)? {
        Some(found) => Ok(found),
        None => Err(FontFault {
            table: Some(table),
            cause: TableFault::Missing,
        }),
    }
}
