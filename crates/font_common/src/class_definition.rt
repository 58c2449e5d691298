//! Reads class definition tables (OpenType, chapter 2, class definition table).
ghost use Rattle.std.specs.Prelude.{◌≡◌, ◌≢◌, ◌≤◌, ◌+◌, ◌*◌, ◌-◌, ◌++◌, [], length, IfOk, IfErr, OnOk, Ok, Err};
ghost use Rattle.font_bytes.specs.declared.fault.TableFault.{TableFault};
ghost use Rattle.font_common.specs.ClassDefinition.{all_class_rows, class_array, class_definition_at, class_range_array, class_range_record, class_row, class_rows_at, class_rows_of, class_run, glyph_count, is_next_range, listed_classes, listed_rows, range_classes, rows_in_ranges};

use crate::coverage::least_after;
use crate::offsets::TableReader;
use crate::rows::first_rows;
use buffer_rows::SortedRows;
use font_bytes::fault::TableFault;
use font_bytes::room::Room;
use font_bytes::words::{need, word};
use layout_common::class_definition::ClassDefinition;
use layout_common::glyph_row::GlyphRow;
use std::alloc::Global;

/// A class range record: glyphs from the first to the last one, and their class.
#[derive(Clone, Copy)]
pub struct ClassRangeRecord {
    pub first: u16,
    pub last: u16,
    pub class: u16,
}

/// The class range record at an offset.
pub fn class_range_record(table: &[u8], at: usize) -> ClassRangeRecord
    requires { at + 6 ≤ length table.now }
    ensures { result ≡ class_range_record table.now at }
{
    ClassRangeRecord {
        first: word(table, at),
        last: word(table, at + 2),
        class: word(table, at + 4),
    }
}

/// Appends the row of a glyph, unless its class is 0.
fn push_class(rows: &mut Vec<GlyphRow<u16>>, glyph: u16, class: u16) -> Result<(), TableFault>
    ensures ok { OnOk result (rows.new.items ≡ rows.old.items ++ class_row glyph class) }
    ensures refused { IfErr result (λ e. e ≡ TableFault.OutOfMemory) }
{
    if class != 0 {
        rows.push(GlyphRow {
            glyph,
            value: class,
        })?;
    }
    Ok(())
}

/// How many of n glyphs from one on are glyphs.
fn glyph_count(first: u16, count: u16) -> usize
    ensures { result ≡ glyph_count first count }
{
    usize::from(count).min(65536 - usize::from(first))
}

/// Reads the rows of format 1.
fn read_listed(
    alloc: Global,
    table: &[u8],
    at: usize,
    room: &mut Room,
) -> Result<Vec<GlyphRow<u16>>, TableFault>
    ensures ok { IfOk result (λ v. listed_classes room.old.left table.now at ≡ Ok (v.items, room.new.left)) }
    ensures refused { IfErr result (λ e. e ≢ TableFault.OutOfMemory
        → listed_classes room.old.left table.now at ≡ Err e) }
{
    need(table, at, 6)?;
    let first = word(table, at + 2);
    let count = word(table, at + 4);
    need(table, at + 6, 2 * usize::from(count))?;
    room.take(usize::from(count))?;
    read_array(alloc, table, at + 6, first, glyph_count(first, count))
}

/// Appends the rows of a range, unless its class is 0.
fn push_range(rows: &mut Vec<GlyphRow<u16>>, range: ClassRangeRecord) -> Result<(), TableFault>
    ensures ok { OnOk result (rows.new.items ≡ rows.old.items ++ class_rows_of range) }
    ensures refused { IfErr result (λ e. e ≡ TableFault.OutOfMemory) }
{
    if range.class == 0 {
        return Ok(());
    }
    push_run(rows, range.class, range.first, range.last)
}

/// Appends the rows of the glyphs from one to another, of one class; none where that is below it.
#[tactic(auto, using(crate::proofs::Classes::run_pushed))]
fn push_run(
    rows: &mut Vec<GlyphRow<u16>>,
    class: u16,
    first: u16,
    last: u16,
) -> Result<(), TableFault>
    ensures ok { OnOk result (rows.new.items ≡ rows.old.items ++ class_run class first (last + 1 - first)) }
    ensures refused { IfErr result (λ e. e ≡ TableFault.OutOfMemory) }
{
    let count = (u32::from(last) + 1).saturating_sub(u32::from(first));
    for offset in 0..count {
        rows.push(GlyphRow {
            glyph: (u32::from(first) + offset) as u16,
            value: class,
        })?;
    }
    Ok(())
}

/// Whether a range may follow: it has no glyphs, or none is below those before it.
fn is_next_range(range: ClassRangeRecord, least: u16) -> bool
    ensures { result ≡ is_next_range least range }
{
    range.last < range.first || least <= range.first
}

/// Reads the rows of an array of classes of glyphs from one on.
#[tactic(auto, using(font_bytes::proofs::Recorded::records_more, font_bytes::proofs::Recorded::records_end))]
fn read_array(
    alloc: Global,
    table: &[u8],
    at: usize,
    first: u16,
    count: usize,
) -> Result<Vec<GlyphRow<u16>>, TableFault>
    requires within { at + 2 * count ≤ length table.now }
    requires glyphs { first + count ≤ 65536 }
    ensures ok { IfOk result (λ v. v.items ≡ listed_rows first (class_array table.now at count)) }
    ensures refused { IfErr result (λ e. e ≡ TableFault.OutOfMemory) }
{
    let mut rows = Vec::with_capacity(alloc, count)?;
    for index in 0..count {
        let class = word(table, at + 2 * index);
        push_class(&mut rows, (usize::from(first) + index) as u16, class)?;
    }
    Ok(rows)
}

/// How many glyphs a range has whose class isn't 0.
fn range_size(range: ClassRangeRecord) -> usize {
    if range.class == 0 {
        return 0;
    }
    (usize::from(range.last) + 1).saturating_sub(usize::from(range.first))
}

/// How many glyphs the ranges of an array have whose class isn't 0, at most as many as there are glyphs.
fn range_glyphs(table: &[u8], from: usize, count: usize) -> usize
    requires { from + 6 * count ≤ length table.now }
{
    let mut glyphs = 0usize;
    for index in 0..count {
        glyphs = glyphs.saturating_add(range_size(class_range_record(table, from + 6 * index)));
    }
    glyphs.min(65536)
}

/// Reads the rows of an array of ranges of glyphs.
#[tactic(auto, using(font_bytes::proofs::Recorded::records_more, font_bytes::proofs::Recorded::records_end))]
fn read_range_array(
    alloc: Global,
    table: &[u8],
    at: usize,
    from: usize,
    count: usize,
) -> Result<Vec<GlyphRow<u16>>, TableFault>
    requires { from + 6 * count ≤ length table.now }
    ensures ok { IfOk result (λ v. rows_in_ranges at (class_range_array table.now from count) ≡ Ok v.items) }
    ensures refused { IfErr result (λ e. e ≢ TableFault.OutOfMemory
        → rows_in_ranges at (class_range_array table.now from count) ≡ Err e) }
{
    let mut rows = Vec::with_capacity(alloc, range_glyphs(table, from, count))?;
    let mut least = 0;
    for index in 0..count {
        let range = class_range_record(table, from + 6 * index);
        if !is_next_range(range, least) {
            return Err(TableFault::Order(at));
        }
        push_range(&mut rows, range)?;
        least = least_after(least, range.first, range.last);
    }
    Ok(rows)
}

/// Reads the rows of format 2.
fn read_ranges(
    alloc: Global,
    table: &[u8],
    at: usize,
    room: &mut Room,
) -> Result<Vec<GlyphRow<u16>>, TableFault>
    requires { at + 4 ≤ length table.now }
    ensures ok { IfOk result (λ v. range_classes room.old.left table.now at ≡ Ok (v.items, room.new.left)) }
    ensures refused { IfErr result (λ e. e ≢ TableFault.OutOfMemory
        → range_classes room.old.left table.now at ≡ Err e) }
{
    let count = usize::from(word(table, at + 2));
    need(table, at + 4, 6 * count)?;
    room.take(count)?;
    let rows = read_range_array(alloc, table, at, at + 4, count)?;
    room.take(rows.len())?;
    Ok(rows)
}

/// Reads the rows of a class definition table, in its order.
fn read_listed_or_ranges(
    alloc: Global,
    table: &[u8],
    at: usize,
    room: &mut Room,
) -> Result<Vec<GlyphRow<u16>>, TableFault>
    ensures ok { IfOk result (λ v. all_class_rows room.old.left table.now at ≡ Ok (v.items, room.new.left)) }
    ensures refused { IfErr result (λ e. e ≢ TableFault.OutOfMemory
        → all_class_rows room.old.left table.now at ≡ Err e) }
{
    need(table, at, 4)?;
    match word(table, at) {
        1 => read_listed(alloc, table, at, room),
        2 => read_ranges(alloc, table, at, room),
        _ => Ok(Vec::new(alloc)),
    }
}

/// Reads the glyphs of a class definition table whose class isn't 0, with their classes. Each class of format 1 takes a row
/// of room, and of format 2 each range, and each glyph of a range whose class isn't 0.
pub fn read_class_rows(
    alloc: Global,
    table: &[u8],
    at: usize,
    room: &mut Room,
) -> Result<SortedRows<GlyphRow<u16>>, TableFault>
    ensures ok { IfOk result (λ v. class_rows_at room.old.left table.now at ≡ Ok (v, room.new.left)) }
    ensures refused { IfErr result (λ e. e ≢ TableFault.OutOfMemory
        → class_rows_at room.old.left table.now at ≡ Err e) }
{
    let rows = read_listed_or_ranges(alloc, table, at, room)?;
    first_rows(alloc, rows)
}

/// Reads a class definition table, in the room of `read_class_rows`.
pub fn read_class_definition(
    alloc: Global,
    table: &[u8],
    at: usize,
    room: &mut Room,
) -> Result<ClassDefinition, TableFault>
    ensures ok { IfOk result (λ c. class_definition_at room.old.left table.now at ≡ Ok (c, room.new.left)) }
    ensures refused { IfErr result (λ e. e ≢ TableFault.OutOfMemory
        → class_definition_at room.old.left table.now at ≡ Err e) }
{
    let rows = read_class_rows(alloc, table, at, room)?;
    let classes = ClassDefinition::new(alloc, rows)?;
    Ok(classes)
}

/// Class definition tables, of which a null offset gives each glyph class 0.
#[derive(Clone, Copy)]
pub struct ClassReader;

impl TableReader for ClassReader {
    type Value = ClassDefinition;

    ghost value_at = { λ _. class_definition_at };

    ghost null_value = { λ _. record { rows = [] } };

    fn read(
        &self,
        alloc: Global,
        bytes: &[u8],
        at: usize,
        room: &mut Room,
    ) -> Result<ClassDefinition, TableFault> {
        read_class_definition(alloc, bytes, at, room)
    }

    fn null(&self, alloc: Global) -> Result<ClassDefinition, TableFault> {
        Ok(ClassDefinition::empty(alloc))
    }
}
