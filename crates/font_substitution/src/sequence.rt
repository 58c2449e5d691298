//! Multiple and alternate substitution subtables (OpenType, GSUB lookup types 2 and 3).
ghost use Rattle.std.specs.Prelude.{◌≡◌, ◌≢◌, ◌≤◌, ◌+◌, IfOk, IfErr, Some, None, Ok, Err, length, true};
ghost use Rattle.buffer_rows.specs.Keys.{numbers_rise};
ghost use Rattle.font_substitution.specs.Sequence.{sequence_glyphs, sequence_row, sequence_rows, multiple_subst_at, alternate_subst_at};

use crate::glyphs::read_counted_glyphs;
use buffer_rows::SortedRows;
use font_bytes::fault::TableFault;
use font_bytes::room::Room;
use font_bytes::words::{need, word};
use font_records::{RowReader, read_covered_rows};
use layout_common::array::Array;
use layout_tables::sequence::{AlternateSubst, MultipleSubst, SequenceRow};
use std::alloc::Global;

/// Reads the glyphs of the sequence table at an offset from the subtable's start, or of an alternate set. A null offset
/// is an empty table.
fn read_sequence(
    alloc: Global,
    table: &[u8],
    start: usize,
    offset: u16,
    room: &mut Room,
) -> Result<Vec<u16>, TableFault>
    requires { start ≤ length table.now }
    ensures ok { IfOk result (λ v. sequence_glyphs table.now start room.old.left offset ≡ Ok (v.items, room.new.left)) }
    ensures refused { IfErr result (λ e. e ≢ TableFault.OutOfMemory
        → sequence_glyphs table.now start room.old.left offset ≡ Err e) }
{
    if offset == 0 {
        return Ok(Vec::new(alloc));
    }
    read_counted_glyphs(alloc, table, start + usize::from(offset), room)
}

/// Reads rows whose records are offsets of sequences from the subtable's start.
#[derive(Clone, Copy)]
struct SequenceRows {
    start: usize,
}

impl RowReader for SequenceRows {
    type Row = SequenceRow;

    ghost glyph_of = { λ r. r.glyph };

    ghost width_of = { λ _. 2 };

    ghost base_of = { λ s. s.start };

    ghost row_at = { λ s. sequence_row s.start };

    fn width(&self) -> usize {
        2
    }

    fn read_row(
        &self,
        alloc: Global,
        table: &[u8],
        at: usize,
        glyph: u16,
        room: &mut Room,
    ) -> Result<Option<SequenceRow>, TableFault> {
        let glyphs = read_sequence(alloc, table, self.start, word(table, at), room)?;
        Ok(Some(SequenceRow {
            glyph,
            glyphs: Array::new(glyphs),
        }))
    }
}

/// Reads the rows of format 1.
fn read_sequence_rows(
    alloc: Global,
    table: &[u8],
    at: usize,
    room: &mut Room,
) -> Result<SortedRows<SequenceRow>, TableFault>
    ensures ok { IfOk result (λ v. sequence_rows room.old.left table.now at ≡ Ok (v, room.new.left)) }
    ensures refused { IfErr result (λ e. e ≢ TableFault.OutOfMemory
        → sequence_rows room.old.left table.now at ≡ Err e) }
{
    need(table, at, 6)?;
    let count = usize::from(word(table, at + 4));
    need(table, at + 6, 2 * count)?;
    let reader = SequenceRows { start: at };
    let rows = read_covered_rows(
        &reader,
        alloc,
        table,
        at,
        word(table, at + 2),
        at + 6,
        count,
        room,
    )?;
    Ok(SortedRows::new(rows))
}

/// Reads the multiple substitution subtable at an offset, none where its format is unknown.
pub fn read_multiple_subst(
    alloc: Global,
    table: &[u8],
    at: usize,
    room: &mut Room,
) -> Result<Option<MultipleSubst>, TableFault>
    ensures ok { IfOk result (λ v. multiple_subst_at room.old.left table.now at ≡ Ok (v, room.new.left)) }
    ensures refused { IfErr result (λ e. e ≢ TableFault.OutOfMemory
        → multiple_subst_at room.old.left table.now at ≡ Err e) }
{
    need(table, at, 2)?;
    if word(table, at) != 1 {
        return Ok(None);
    }
    let rows = read_sequence_rows(alloc, table, at, room)?;
    Ok(Some(MultipleSubst { rows }))
}

/// Reads the alternate substitution subtable at an offset, none where its format is unknown.
pub fn read_alternate_subst(
    alloc: Global,
    table: &[u8],
    at: usize,
    room: &mut Room,
) -> Result<Option<AlternateSubst>, TableFault>
    ensures ok { IfOk result (λ v. alternate_subst_at room.old.left table.now at ≡ Ok (v, room.new.left)) }
    ensures refused { IfErr result (λ e. e ≢ TableFault.OutOfMemory
        → alternate_subst_at room.old.left table.now at ≡ Err e) }
{
    need(table, at, 2)?;
    if word(table, at) != 1 {
        return Ok(None);
    }
    let rows = read_sequence_rows(alloc, table, at, room)?;
    Ok(Some(AlternateSubst { rows }))
}
