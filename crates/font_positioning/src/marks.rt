//! Subtables that attach marks (OpenType, GPOS lookup types 4, 5 and 6).
ghost use Rattle.std.specs.Prelude.{◌≡◌, ◌≢◌, ◌≤◌, ◌<◌, ◌+◌, ◌*◌, IfOk, IfErr, Ok, Err, length};
ghost use Rattle.buffer_rows.specs.Keys.{numbers_rise};
ghost use Rattle.font_positioning.specs.Marks.{array_rows, mark_row, base_row, component_item, component_list, ligature_row, mark_base, mark_ligature, mark_base_pos_at, mark_lig_pos_at};

use crate::anchors::{read_anchor, read_anchors};
use buffer_rows::SortedRows;
use font_bytes::fault::TableFault;
use font_bytes::room::Room;
use font_bytes::words::{need, word};
use font_records::{RecordReader, RowReader, read_array, read_covered_rows};
use layout_common::array::Array;
use layout_common::glyph_row::GlyphRow;
use layout_tables::mark::{
    BaseRow, ComponentRecord, LigatureRow, MarkBasePos, MarkLigPos, MarkRecord,
};
use std::alloc::Global;

/// Reads rows whose records are a mark's class and the offset of its anchor from the mark array's start.
#[derive(Clone, Copy)]
struct MarkRows {
    class_count: u16,
    base: usize,
}

impl RowReader for MarkRows {
    type Row = GlyphRow<MarkRecord>;

    ghost glyph_of = { λ r. r.glyph };

    ghost width_of = { λ _. 4 };

    ghost base_of = { λ s. s.base };

    ghost row_at = { λ s table. mark_row s.class_count table s.base };

    fn width(&self) -> usize {
        4
    }

    fn read_row(
        &self,
        _alloc: Global,
        table: &[u8],
        at: usize,
        glyph: u16,
        _room: &mut Room,
    ) -> Result<Option<GlyphRow<MarkRecord>>, TableFault> {
        let class = word(table, at);
        if class >= self.class_count {
            return Ok(None);
        }
        let anchor = read_anchor(self.base, table, at + 2)?;
        Ok(Some(GlyphRow {
            glyph,
            value: MarkRecord { class, anchor },
        }))
    }
}

/// Reads rows whose records are the offsets of anchors from the array's start.
#[derive(Clone, Copy)]
struct BaseRows {
    class_count: u16,
    base: usize,
}

impl RowReader for BaseRows {
    type Row = BaseRow;

    ghost glyph_of = { λ r. r.glyph };

    ghost width_of = { λ s. 2 * s.class_count };

    ghost base_of = { λ s. s.base };

    ghost row_at = { λ s table. base_row s.class_count table s.base };

    fn width(&self) -> usize {
        2 * usize::from(self.class_count)
    }

    fn read_row(
        &self,
        alloc: Global,
        table: &[u8],
        at: usize,
        glyph: u16,
        room: &mut Room,
    ) -> Result<Option<BaseRow>, TableFault> {
        let anchors = read_anchors(
            alloc,
            self.base,
            table,
            at,
            usize::from(self.class_count),
            room,
        )?;
        Ok(Some(BaseRow {
            glyph,
            anchors: Array::new(anchors),
        }))
    }
}

/// Reads components whose records are the offsets of anchors from the ligature attach table's start.
#[derive(Clone, Copy)]
struct Components {
    class_count: u16,
    base: usize,
}

impl RecordReader for Components {
    type Item = ComponentRecord;

    ghost width_of = { λ s. 2 * s.class_count };

    ghost base_of = { λ s. s.base };

    ghost item_at = { λ s. component_item s.class_count s.base };

    fn width(&self) -> usize {
        2 * usize::from(self.class_count)
    }

    fn read_item(
        &self,
        alloc: Global,
        table: &[u8],
        at: usize,
        room: &mut Room,
    ) -> Result<Option<ComponentRecord>, TableFault> {
        let anchors = read_anchors(
            alloc,
            self.base,
            table,
            at,
            usize::from(self.class_count),
            room,
        )?;
        Ok(Some(ComponentRecord {
            anchors: Array::new(anchors),
        }))
    }
}

/// Reads the components of the ligature attach table at an offset.
fn read_components(
    class_count: u16,
    alloc: Global,
    table: &[u8],
    at: usize,
    room: &mut Room,
) -> Result<Vec<ComponentRecord>, TableFault>
    ensures ok { IfOk result (λ v. component_list class_count room.old.left table.now at ≡ Ok (v.items, room.new.left)) }
    ensures refused { IfErr result (λ e. e ≢ TableFault.OutOfMemory
        → component_list class_count room.old.left table.now at ≡ Err e) }
{
    need(table, at, 2)?;
    let count = usize::from(word(table, at));
    need(table, at + 2, 2 * usize::from(class_count) * count)?;
    let reader = Components {
        class_count,
        base: at,
    };
    read_array(&reader, alloc, table, at + 2, count, room)
}

/// Reads rows whose records are the offsets of ligature attach tables from the ligature array's start.
#[derive(Clone, Copy)]
struct LigatureRows {
    class_count: u16,
    base: usize,
}

impl RowReader for LigatureRows {
    type Row = LigatureRow;

    ghost glyph_of = { λ r. r.glyph };

    ghost width_of = { λ _. 2 };

    ghost base_of = { λ s. s.base };

    ghost row_at = { λ s table. ligature_row s.class_count table s.base };

    fn width(&self) -> usize {
        2
    }

    fn read_row(
        &self,
        alloc: Global,
        table: &[u8],
        at: usize,
        glyph: u16,
        room: &mut Room,
    ) -> Result<Option<LigatureRow>, TableFault> {
        let offset = word(table, at);
        if offset == 0 {
            return Ok(None);
        }
        let attach = self.base + usize::from(offset);
        let components = read_components(self.class_count, alloc, table, attach, room)?;
        Ok(Some(LigatureRow {
            glyph,
            components: Array::new(components),
        }))
    }
}

/// Reads the marks of a mark array, whose offset counts from the subtable's start.
fn read_marks(
    class_count: u16,
    alloc: Global,
    table: &[u8],
    start: usize,
    coverage: u16,
    offset: u16,
    room: &mut Room,
) -> Result<SortedRows<GlyphRow<MarkRecord>>, TableFault>
    requires { start ≤ length table.now }
    ensures ok { IfOk result (λ v. array_rows (mark_row class_count table.now) 4 room.old.left table.now start coverage
        offset ≡ Ok (v, room.new.left)) }
    ensures refused { IfErr result (λ e. e ≢ TableFault.OutOfMemory → array_rows (mark_row class_count table.now) 4
        room.old.left table.now start coverage offset ≡ Err e) }
{
    if offset == 0 {
        return Ok(SortedRows::new(Vec::new(alloc)));
    }
    let at = start + usize::from(offset);
    need(table, at, 2)?;
    let count = usize::from(word(table, at));
    need(table, at + 2, 4 * count)?;
    let reader = MarkRows {
        class_count,
        base: at,
    };
    let rows = read_covered_rows(&reader, alloc, table, start, coverage, at + 2, count, room)?;
    Ok(SortedRows::new(rows))
}

/// Reads the bases of a base array, or the marks of a mark array that marks are attached to.
fn read_bases(
    class_count: u16,
    alloc: Global,
    table: &[u8],
    start: usize,
    coverage: u16,
    offset: u16,
    room: &mut Room,
) -> Result<SortedRows<BaseRow>, TableFault>
    requires { start ≤ length table.now }
    ensures ok { IfOk result (λ v. array_rows (base_row class_count table.now) (2 * class_count) room.old.left table.now
        start coverage offset ≡ Ok (v, room.new.left)) }
    ensures refused { IfErr result (λ e. e ≢ TableFault.OutOfMemory → array_rows (base_row class_count table.now)
        (2 * class_count) room.old.left table.now start coverage offset ≡ Err e) }
{
    if offset == 0 {
        return Ok(SortedRows::new(Vec::new(alloc)));
    }
    let at = start + usize::from(offset);
    need(table, at, 2)?;
    let count = usize::from(word(table, at));
    need(table, at + 2, 2 * usize::from(class_count) * count)?;
    let reader = BaseRows {
        class_count,
        base: at,
    };
    let rows = read_covered_rows(&reader, alloc, table, start, coverage, at + 2, count, room)?;
    Ok(SortedRows::new(rows))
}

/// Reads the ligatures of a ligature array.
fn read_ligatures(
    class_count: u16,
    alloc: Global,
    table: &[u8],
    start: usize,
    coverage: u16,
    offset: u16,
    room: &mut Room,
) -> Result<SortedRows<LigatureRow>, TableFault>
    requires { start ≤ length table.now }
    ensures ok { IfOk result (λ v. array_rows (ligature_row class_count table.now) 2 room.old.left table.now start coverage
        offset ≡ Ok (v, room.new.left)) }
    ensures refused { IfErr result (λ e. e ≢ TableFault.OutOfMemory → array_rows (ligature_row class_count table.now) 2
        room.old.left table.now start coverage offset ≡ Err e) }
{
    if offset == 0 {
        return Ok(SortedRows::new(Vec::new(alloc)));
    }
    let at = start + usize::from(offset);
    need(table, at, 2)?;
    let count = usize::from(word(table, at));
    need(table, at + 2, 2 * count)?;
    let reader = LigatureRows {
        class_count,
        base: at,
    };
    let rows = read_covered_rows(&reader, alloc, table, start, coverage, at + 2, count, room)?;
    Ok(SortedRows::new(rows))
}

/// Reads format 1 of mark to base or mark to mark attachment.
fn read_mark_base(
    alloc: Global,
    table: &[u8],
    at: usize,
    room: &mut Room,
) -> Result<MarkBasePos, TableFault>
    ensures ok { IfOk result (λ v. mark_base room.old.left table.now at ≡ Ok (v, room.new.left)) }
    ensures refused { IfErr result (λ e. e ≢ TableFault.OutOfMemory → mark_base room.old.left table.now at ≡ Err e) }
{
    need(table, at, 12)?;
    let class_count = word(table, at + 6);
    let marks = read_marks(
        class_count,
        alloc,
        table,
        at,
        word(table, at + 2),
        word(table, at + 8),
        room,
    )?;
    let bases = read_bases(
        class_count,
        alloc,
        table,
        at,
        word(table, at + 4),
        word(table, at + 10),
        room,
    )?;
    Ok(MarkBasePos { marks, bases })
}

/// Reads format 1 of mark to ligature attachment.
fn read_mark_ligature(
    alloc: Global,
    table: &[u8],
    at: usize,
    room: &mut Room,
) -> Result<MarkLigPos, TableFault>
    ensures ok { IfOk result (λ v. mark_ligature room.old.left table.now at ≡ Ok (v, room.new.left)) }
    ensures refused { IfErr result (λ e. e ≢ TableFault.OutOfMemory → mark_ligature room.old.left table.now at ≡ Err e) }
{
    need(table, at, 12)?;
    let class_count = word(table, at + 6);
    let marks = read_marks(
        class_count,
        alloc,
        table,
        at,
        word(table, at + 2),
        word(table, at + 8),
        room,
    )?;
    let ligatures = read_ligatures(
        class_count,
        alloc,
        table,
        at,
        word(table, at + 4),
        word(table, at + 10),
        room,
    )?;
    Ok(MarkLigPos { marks, ligatures })
}

/// Reads the mark to base or mark to mark attachment subtable at an offset, none where its format is unknown.
pub fn read_mark_base_pos(
    alloc: Global,
    table: &[u8],
    at: usize,
    room: &mut Room,
) -> Result<Option<MarkBasePos>, TableFault>
    ensures ok { IfOk result (λ v. mark_base_pos_at room.old.left table.now at ≡ Ok (v, room.new.left)) }
    ensures refused { IfErr result (λ e. e ≢ TableFault.OutOfMemory
        → mark_base_pos_at room.old.left table.now at ≡ Err e) }
{
    need(table, at, 2)?;
    if word(table, at) != 1 {
        return Ok(None);
    }
    let subtable = read_mark_base(alloc, table, at, room)?;
    Ok(Some(subtable))
}

/// Reads the mark to ligature attachment subtable at an offset, none where its format is unknown.
pub fn read_mark_lig_pos(
    alloc: Global,
    table: &[u8],
    at: usize,
    room: &mut Room,
) -> Result<Option<MarkLigPos>, TableFault>
    ensures ok { IfOk result (λ v. mark_lig_pos_at room.old.left table.now at ≡ Ok (v, room.new.left)) }
    ensures refused { IfErr result (λ e. e ≢ TableFault.OutOfMemory
        → mark_lig_pos_at room.old.left table.now at ≡ Err e) }
{
    need(table, at, 2)?;
    if word(table, at) != 1 {
        return Ok(None);
    }
    let subtable = read_mark_ligature(alloc, table, at, room)?;
    Ok(Some(subtable))
}
