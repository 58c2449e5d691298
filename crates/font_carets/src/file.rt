//! The carets of ligatures of a font file.
ghost use Rattle.std.specs.Prelude.{◌≡◌, IfOk};
ghost use Rattle.font_carets.specs.File.{caret_room, ligature_carets, read_or_none};
ghost use Rattle.font_carets.specs.Lists.{ligature_carets_at};

use crate::lists::read_ligature_carets;
use crate::rows::{LigatureCarets, no_ligatures};
use buffer_rows::SortedRows;
use font_bytes::directory::font_table;
use font_bytes::fault::TableFault;
use font_bytes::room::Room;
use font_bytes::table_names::FontTable;
use std::alloc::{AllocError, Global};

/// How many rows a list may have: ligatures and carets.
const CARET_ROOM: Room = Room { left: 1_048_576 };

/// The ligatures of GDEF with their carets, none where the table is refused.
fn read_or_none(alloc: Global, table: &[u8]) -> Result<SortedRows<LigatureCarets>, AllocError>
    ensures { IfOk result (λ v. v ≡ read_or_none (ligature_carets_at caret_room table.now)) }
{
    let mut room = CARET_ROOM;
    match read_ligature_carets(alloc, table, &mut room) {
        Ok(rows) => Ok(rows),
        Err(TableFault::OutOfMemory) => Err(AllocError),
        Err(_) => Ok(no_ligatures(alloc)),
    }
}

/// The ligatures for which the font with an index of a font file gives carets, at the default instance. A list that can't
/// be read has none: carets are of help, and a text is shaped without them.
pub fn ligature_carets(
    alloc: Global,
    bytes: &[u8],
    index: usize,
) -> Result<SortedRows<LigatureCarets>, AllocError>
    ensures { IfOk result (λ v. v ≡ ligature_carets bytes.now index) }
{
    match font_table(bytes, index, FontTable::Gdef.tag()) {
        Ok(Some(table)) => read_or_none(alloc, table),
        Ok(None) | Err(_) => Ok(no_ligatures(alloc)),
    }
}
