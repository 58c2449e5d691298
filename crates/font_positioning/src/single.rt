//! Single adjustment subtables (OpenType, GPOS lookup type 1).
ghost use Rattle.std.specs.Prelude.{◌≡◌, ◌≢◌, ◌≤◌, ◌+◌, IfOk, IfErr, Ok, Err, length};
ghost use Rattle.font_positioning.specs.Values.{value_size};
ghost use Rattle.font_positioning.specs.Single.{same_value_row, single_same, value_row, single_each, single_pos_at};

use crate::values::{value_at, value_size};
use buffer_rows::SortedRows;
use font_bytes::fault::TableFault;
use font_bytes::room::Room;
use font_bytes::words::{need, word};
use font_common::read_glyphs_in_room;
use font_records::{RowReader, read_covered_rows, read_rows_of_glyphs};
use layout_common::glyph_row::GlyphRow;
use layout_tables::single_pos::SinglePos;
use layout_tables::value::ValueRecord;
use std::alloc::Global;

/// Reads rows of format 1, which have no records.
#[derive(Clone, Copy)]
struct SameValueRows {
    value: ValueRecord,
}

impl RowReader for SameValueRows {
    type Row = GlyphRow<ValueRecord>;

    ghost glyph_of = { λ r. r.glyph };

    ghost width_of = { λ _. 0 };

    ghost base_of = { λ _. 0 };

    ghost row_at = { λ s _. same_value_row s.value };

    fn width(&self) -> usize {
        0
    }

    fn read_row(
        &self,
        _alloc: Global,
        _table: &[u8],
        _at: usize,
        glyph: u16,
        _room: &mut Room,
    ) -> Result<Option<GlyphRow<ValueRecord>>, TableFault> {
        Ok(Some(GlyphRow {
            glyph,
            value: self.value,
        }))
    }
}

/// Reads rows whose records are value records.
#[derive(Clone, Copy)]
struct ValueRows {
    format: u16,
}

impl RowReader for ValueRows {
    type Row = GlyphRow<ValueRecord>;

    ghost glyph_of = { λ r. r.glyph };

    ghost width_of = { λ s. value_size s.format };

    ghost base_of = { λ _. 0 };

    ghost row_at = { λ s. value_row s.format };

    fn width(&self) -> usize {
        value_size(self.format)
    }

    fn read_row(
        &self,
        _alloc: Global,
        table: &[u8],
        at: usize,
        glyph: u16,
        _room: &mut Room,
    ) -> Result<Option<GlyphRow<ValueRecord>>, TableFault> {
        Ok(Some(GlyphRow {
            glyph,
            value: value_at(self.format, table, at),
        }))
    }
}

/// Reads format 1: a value record for all glyphs.
fn read_same(
    alloc: Global,
    table: &[u8],
    at: usize,
    room: &mut Room,
) -> Result<Option<SinglePos>, TableFault>
    ensures ok { IfOk result (λ v. single_same room.old.left table.now at ≡ Ok (v, room.new.left)) }
    ensures refused { IfErr result (λ e. e ≢ TableFault.OutOfMemory
        → single_same room.old.left table.now at ≡ Err e) }
{
    need(table, at, 6)?;
    let format = word(table, at + 4);
    need(table, at + 6, value_size(format))?;
    let reader = SameValueRows {
        value: value_at(format, table, at + 6),
    };
    let glyphs = read_glyphs_in_room(alloc, table, at, u32::from(word(table, at + 2)), room)?;
    let rows = read_rows_of_glyphs(&reader, alloc, table, &glyphs, 0, glyphs.len(), room)?;
    Ok(Some(SinglePos {
        rows: SortedRows::new(rows),
    }))
}

/// Reads format 2: a value record for each glyph.
fn read_each(
    alloc: Global,
    table: &[u8],
    at: usize,
    room: &mut Room,
) -> Result<Option<SinglePos>, TableFault>
    ensures ok { IfOk result (λ v. single_each room.old.left table.now at ≡ Ok (v, room.new.left)) }
    ensures refused { IfErr result (λ e. e ≢ TableFault.OutOfMemory
        → single_each room.old.left table.now at ≡ Err e) }
{
    need(table, at, 8)?;
    let reader = ValueRows {
        format: word(table, at + 4),
    };
    let count = usize::from(word(table, at + 6));
    need(table, at + 8, value_size(reader.format) * count)?;
    let rows = read_covered_rows(
        &reader,
        alloc,
        table,
        at,
        word(table, at + 2),
        at + 8,
        count,
        room,
    )?;
    Ok(Some(SinglePos {
        rows: SortedRows::new(rows),
    }))
}

/// Reads the single adjustment subtable at an offset, none where its format is unknown.
pub fn read_single_pos(
    alloc: Global,
    table: &[u8],
    at: usize,
    room: &mut Room,
) -> Result<Option<SinglePos>, TableFault>
    ensures ok { IfOk result (λ v. single_pos_at room.old.left table.now at ≡ Ok (v, room.new.left)) }
    ensures refused { IfErr result (λ e. e ≢ TableFault.OutOfMemory
        → single_pos_at room.old.left table.now at ≡ Err e) }
{
    need(table, at, 2)?;
    match word(table, at) {
        1 => read_same(alloc, table, at, room),
        2 => read_each(alloc, table, at, room),
        _ => Ok(None),
    }
}
