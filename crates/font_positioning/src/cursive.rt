//! Cursive attachment subtables (OpenType, GPOS lookup type 3).
ghost use Rattle.std.specs.Prelude.{◌≡◌, ◌≢◌, ◌≤◌, ◌+◌, IfOk, IfErr, Ok, Err, length};
ghost use Rattle.font_positioning.specs.Cursive.{entry_exit, entry_exit_row, cursive_rows, cursive_pos_at};

use crate::anchors::read_anchor;
use buffer_rows::SortedRows;
use font_bytes::fault::TableFault;
use font_bytes::room::Room;
use font_bytes::words::{need, word};
use font_records::{RowReader, read_covered_rows};
use layout_common::glyph_row::GlyphRow;
use layout_tables::cursive::{CursivePos, EntryExit};
use std::alloc::Global;

/// Reads rows whose records are the offsets of an entry and an exit anchor from the subtable's start.
#[derive(Clone, Copy)]
struct EntryExitRows {
    start: usize,
}

/// The anchors of an entry exit record.
fn read_entry_exit(start: usize, table: &[u8], at: usize) -> Result<EntryExit, TableFault>
    requires within { at + 4 ≤ length table.now }
    requires start { start ≤ length table.now }
    ensures { result ≡ entry_exit start table.now at }
{
    let entry = read_anchor(start, table, at)?;
    let exit = read_anchor(start, table, at + 2)?;
    Ok(EntryExit { entry, exit })
}

impl RowReader for EntryExitRows {
    type Row = GlyphRow<EntryExit>;

    ghost glyph_of = { λ r. r.glyph };

    ghost width_of = { λ _. 4 };

    ghost base_of = { λ s. s.start };

    ghost row_at = { λ s. entry_exit_row s.start };

    fn width(&self) -> usize {
        4
    }

    fn read_row(
        &self,
        _alloc: Global,
        table: &[u8],
        at: usize,
        glyph: u16,
        _room: &mut Room,
    ) -> Result<Option<GlyphRow<EntryExit>>, TableFault> {
        let value = read_entry_exit(self.start, table, at)?;
        Ok(Some(GlyphRow { glyph, value }))
    }
}

/// Reads the rows of format 1.
fn read_cursive_rows(
    alloc: Global,
    table: &[u8],
    at: usize,
    room: &mut Room,
) -> Result<SortedRows<GlyphRow<EntryExit>>, TableFault>
    ensures ok { IfOk result (λ v. cursive_rows room.old.left table.now at ≡ Ok (v, room.new.left)) }
    ensures refused { IfErr result (λ e. e ≢ TableFault.OutOfMemory
        → cursive_rows room.old.left table.now at ≡ Err e) }
{
    need(table, at, 6)?;
    let count = usize::from(word(table, at + 4));
    need(table, at + 6, 4 * count)?;
    let reader = EntryExitRows { start: at };
    let rows = read_covered_rows(
        &reader,
        alloc,
        table,
        at,
        word(table, at + 2),
        at + 6,
        count,
        room,
    )?;
    Ok(SortedRows::new(rows))
}

/// Reads the cursive attachment subtable at an offset, none where its format is unknown.
pub fn read_cursive_pos(
    alloc: Global,
    table: &[u8],
    at: usize,
    room: &mut Room,
) -> Result<Option<CursivePos>, TableFault>
    ensures ok { IfOk result (λ v. cursive_pos_at room.old.left table.now at ≡ Ok (v, room.new.left)) }
    ensures refused { IfErr result (λ e. e ≢ TableFault.OutOfMemory
        → cursive_pos_at room.old.left table.now at ≡ Err e) }
{
    need(table, at, 2)?;
    if word(table, at) != 1 {
        return Ok(None);
    }
    let rows = read_cursive_rows(alloc, table, at, room)?;
    Ok(Some(CursivePos { rows }))
}
