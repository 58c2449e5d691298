//! Single substitution subtables (OpenType, GSUB lookup type 1).
ghost use Rattle.std.specs.Prelude.{◌≡◌, ◌≢◌, ◌≤◌, ◌+◌, IfOk, IfErr, Some, None, Ok, Err, length};
ghost use Rattle.font_substitution.specs.Single.{delta_row, single_delta, single_listed, single_subst_at, substitute_row};

use buffer_rows::SortedRows;
use font_bytes::fault::TableFault;
use font_bytes::room::Room;
use font_bytes::words::{need, word};
use font_common::read_glyphs_in_room;
use font_records::{RowReader, read_covered_rows, read_rows_of_glyphs};
use layout_common::glyph_row::GlyphRow;
use layout_tables::single_subst::SingleSubst;
use std::alloc::Global;

/// Reads rows of format 1, which have no records.
#[derive(Clone, Copy)]
struct DeltaRows {
    delta: u16,
}

impl RowReader for DeltaRows {
    type Row = GlyphRow<u16>;

    ghost glyph_of = { λ r. r.glyph };

    ghost width_of = { λ _. 0 };

    ghost base_of = { λ _. 0 };

    ghost row_at = { λ s _. delta_row s.delta };

    fn width(&self) -> usize {
        0
    }

    fn read_row(
        &self,
        _alloc: Global,
        _table: &[u8],
        _at: usize,
        glyph: u16,
        _room: &mut Room,
    ) -> Result<Option<GlyphRow<u16>>, TableFault> {
        Ok(Some(GlyphRow {
            glyph,
            value: glyph.wrapping_add(self.delta),
        }))
    }
}

/// Reads rows whose records are the substitutes.
#[derive(Clone, Copy)]
pub(crate) struct SubstituteRows;

impl RowReader for SubstituteRows {
    type Row = GlyphRow<u16>;

    ghost glyph_of = { λ r. r.glyph };

    ghost width_of = { λ _. 2 };

    ghost base_of = { λ _. 0 };

    ghost row_at = { λ _. substitute_row };

    fn width(&self) -> usize {
        2
    }

    fn read_row(
        &self,
        _alloc: Global,
        table: &[u8],
        at: usize,
        glyph: u16,
        _room: &mut Room,
    ) -> Result<Option<GlyphRow<u16>>, TableFault> {
        Ok(Some(GlyphRow {
            glyph,
            value: word(table, at),
        }))
    }
}

/// Reads format 1: a difference for all glyphs.
fn read_delta(
    alloc: Global,
    table: &[u8],
    at: usize,
    room: &mut Room,
) -> Result<Option<SingleSubst>, TableFault>
    ensures ok { IfOk result (λ v. single_delta room.old.left table.now at ≡ Ok (v, room.new.left)) }
    ensures refused { IfErr result (λ e. e ≢ TableFault.OutOfMemory
        → single_delta room.old.left table.now at ≡ Err e) }
{
    need(table, at, 6)?;
    let reader = DeltaRows {
        delta: word(table, at + 4),
    };
    let glyphs = read_glyphs_in_room(alloc, table, at, u32::from(word(table, at + 2)), room)?;
    let rows = read_rows_of_glyphs(&reader, alloc, table, &glyphs, 0, glyphs.len(), room)?;
    Ok(Some(SingleSubst {
        rows: SortedRows::new(rows),
    }))
}

/// Reads format 2: a substitute for each glyph.
fn read_listed(
    alloc: Global,
    table: &[u8],
    at: usize,
    room: &mut Room,
) -> Result<Option<SingleSubst>, TableFault>
    ensures ok { IfOk result (λ v. single_listed room.old.left table.now at ≡ Ok (v, room.new.left)) }
    ensures refused { IfErr result (λ e. e ≢ TableFault.OutOfMemory
        → single_listed room.old.left table.now at ≡ Err e) }
{
    need(table, at, 6)?;
    let count = usize::from(word(table, at + 4));
    need(table, at + 6, 2 * count)?;
    let rows = read_covered_rows(
        &SubstituteRows,
        alloc,
        table,
        at,
        word(table, at + 2),
        at + 6,
        count,
        room,
    )?;
    Ok(Some(SingleSubst {
        rows: SortedRows::new(rows),
    }))
}

/// Reads the single substitution subtable at an offset, none where its format is unknown.
pub fn read_single_subst(
    alloc: Global,
    table: &[u8],
    at: usize,
    room: &mut Room,
) -> Result<Option<SingleSubst>, TableFault>
    ensures ok { IfOk result (λ v. single_subst_at room.old.left table.now at ≡ Ok (v, room.new.left)) }
    ensures refused { IfErr result (λ e. e ≢ TableFault.OutOfMemory
        → single_subst_at room.old.left table.now at ≡ Err e) }
{
    need(table, at, 2)?;
    match word(table, at) {
        1 => read_delta(alloc, table, at, room),
        2 => read_listed(alloc, table, at, room),
        _ => Ok(None),
    }
}
