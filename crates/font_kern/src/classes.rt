//! Classes of glyphs and their distances (OpenType, chapter kern, format 2).
ghost use Rattle.std.specs.Prelude.{◌≡◌, ◌≢◌, ◌+◌, ◌≤◌, ◌*◌, ◌/◌, ◌^◌, ◌<◌, ◌++◌, IfOk, IfErr, OnOk, Ok, Err, length, map};
ghost use Rattle.std.specs.List.{flat_map};
ghost use Rattle.font_bytes.specs.Records.{records};
ghost use Rattle.layout_tables.specs.Fits.{class_count};
ghost use Rattle.font_kern.specs.Pairs.{kern_values};
ghost use Rattle.font_kern.specs.Classes.{class_header, listed_values, glyphs_from, class_list, left_class, right_class, left_classes, right_classes, distance_at, class_records, room_of_classes, class_pairs, class_kerning, forward_kerning, backward_kerning, kerning_of_classes, classes_at};

use crate::kerning::Kerning;
use crate::order::rising_only;
use crate::pairs::kern_values;
use buffer_rows::SortedRows;
use font_bytes::fault::TableFault;
use font_bytes::room::Room;
use font_bytes::words::{fits, need, signed_word, word};
use layout_common::array::Array;
use layout_common::class_definition::ClassDefinition;
use layout_common::coverage::Coverage;
use layout_common::glyph_row::GlyphRow;
use layout_tables::pair::{Class1Record, ClassPairs, PairPos, PairValues};
use std::alloc::{AllocError, Global};

/// How many glyphs there are at most.
const GLYPHS: usize = 65536;

/// The header of format 2. Offsets are those of the table's bytes.
#[derive(Clone, Copy, PartialEq, Eq, Debug)]
pub struct ClassHeader {
    /// The width of a row of the array in bytes (`rowWidth`).
    pub width: u16,
    /// The list of the left glyphs' classes.
    pub left_at: usize,
    /// The list of the right glyphs' classes.
    pub right_at: usize,
    /// The offset of the array from the subtable's start, from which the values of left glyphs count.
    pub array: u16,
    pub array_at: usize,
}

/// Rows or columns of the array: how far each is from the one before it, and how many there are.
#[derive(Clone, Copy, PartialEq, Eq, Debug)]
pub struct Steps {
    pub width: u16,
    pub count: usize,
}

fn class_header(table: &[u8], start: usize, at: usize) -> ClassHeader
    requires within { at + 8 ≤ length table.now }
    requires start { start ≤ at }
    ensures value { result ≡ class_header table.now start at }
    ensures near { result.array_at ≤ at + 65535 }
{
    let array = word(table, at + 6);
    ClassHeader {
        width: word(table, at),
        left_at: start + usize::from(word(table, at + 2)),
        right_at: start + usize::from(word(table, at + 4)),
        array,
        array_at: start + usize::from(array),
    }
}

/// How many of n glyphs from one on there are.
fn glyphs_from(first: u16, count: u16) -> usize
    ensures { result ≡ glyphs_from first count }
{
    usize::from(count).min(GLYPHS - usize::from(first))
}

/// The values of glyphs from one on.
fn listed_values(
    alloc: Global,
    table: &[u8],
    at: usize,
    first: u16,
    count: usize,
) -> Result<Vec<GlyphRow<u16>>, AllocError>
    requires within { at + 2 * count ≤ length table.now }
    requires glyphs { first + count ≤ 65536 }
    ensures { IfOk result (λ v. v.items ≡ listed_values table.now at first count) }
{
    let mut rows = Vec::with_capacity(alloc, count)?;
    for index in 0..count {
        let glyph = (usize::from(first) + index) as u16;
        let value = word(table, at + 2 * index);
        rows.push(GlyphRow { glyph, value })?;
    }
    Ok(rows)
}

/// Reads a class table: the values of its glyphs.
fn read_class_list(
    alloc: Global,
    table: &[u8],
    at: usize,
    room: &mut Room,
) -> Result<Vec<GlyphRow<u16>>, TableFault>
    ensures ok { IfOk result (λ v. class_list room.old.left table.now at ≡ Ok (v.items, room.new.left)) }
    ensures refused { IfErr result (λ e. e ≢ TableFault.OutOfMemory
        → class_list room.old.left table.now at ≡ Err e) }
{
    need(table, at, 4)?;
    let first = word(table, at);
    let count = word(table, at + 2);
    room.take(usize::from(count))?;
    need(table, at + 4, 2 * usize::from(count))?;
    Ok(listed_values(alloc, table, at + 4, first, glyphs_from(first, count))?)
}

/// Appends the class of a left glyph, the row of the array that its value leads to.
fn push_left(
    rows: &mut Vec<GlyphRow<u16>>,
    header: ClassHeader,
    row: GlyphRow<u16>,
) -> Result<(), AllocError>
    ensures { OnOk result (rows.new.items ≡ rows.old.items ++ left_class header row) }
{
    if header.array <= row.value && 0 < header.width {
        let value = (row.value - header.array) / header.width;
        rows.push(GlyphRow {
            glyph: row.glyph,
            value,
        })?;
    }
    Ok(())
}

/// Appends the class of a right glyph, the column that its value leads to, if a row is that wide.
fn push_right(
    rows: &mut Vec<GlyphRow<u16>>,
    header: ClassHeader,
    row: GlyphRow<u16>,
) -> Result<(), AllocError>
    ensures { OnOk result (rows.new.items ≡ rows.old.items ++ right_class header row) }
{
    let value = row.value / 2;
    if value < header.width / 2 {
        rows.push(GlyphRow {
            glyph: row.glyph,
            value,
        })?;
    }
    Ok(())
}

fn left_rows(
    alloc: Global,
    header: ClassHeader,
    list: &[GlyphRow<u16>],
) -> Result<Vec<GlyphRow<u16>>, AllocError>
    ensures { IfOk result (λ v. v.items ≡ flat_map (left_class header) list.now) }
{
    let mut rows = Vec::new(alloc);
    for row in list {
        push_left(&mut rows, header, *row)?;
    }
    Ok(rows)
}

fn right_rows(
    alloc: Global,
    header: ClassHeader,
    list: &[GlyphRow<u16>],
) -> Result<Vec<GlyphRow<u16>>, AllocError>
    ensures { IfOk result (λ v. v.items ≡ flat_map (right_class header) list.now) }
{
    let mut rows = Vec::new(alloc);
    for row in list {
        push_right(&mut rows, header, *row)?;
    }
    Ok(rows)
}

fn left_classes(
    alloc: Global,
    header: ClassHeader,
    list: &[GlyphRow<u16>],
) -> Result<SortedRows<GlyphRow<u16>>, AllocError>
    ensures { IfOk result (λ rows. rows ≡ left_classes header list.now) }
{
    let rows = left_rows(alloc, header, list)?;
    Ok(SortedRows::new(rising_only(alloc, rows)?))
}

fn right_classes(
    alloc: Global,
    header: ClassHeader,
    list: &[GlyphRow<u16>],
) -> Result<SortedRows<GlyphRow<u16>>, AllocError>
    ensures { IfOk result (λ rows. rows ≡ right_classes header list.now) }
{
    let rows = right_rows(alloc, header, list)?;
    Ok(SortedRows::new(rising_only(alloc, rows)?))
}

/// One more than the highest class of some rows.
fn class_count(rows: &[GlyphRow<u16>]) -> usize
    ensures value { result ≡ class_count 0 rows.now }
    ensures few { result ≤ 65536 }
{
    let mut count = 0;
    for row in rows {
        count = count.max(usize::from(row.value) + 1);
    }
    count
}

/// The values of two glyphs by their distance at an offset, which is 0 past the table's end.
fn values_at(is_backward: bool, table: &[u8], at: usize) -> PairValues
    ensures { result ≡ kern_values is_backward (distance_at table.now at) }
{
    if fits(table, at, 2) {
        kern_values(is_backward, signed_word(table, at))
    } else {
        kern_values(is_backward, 0)
    }
}

/// The records of one row or column of the array.
#[tactic(auto, using(font_bytes::proofs::Recorded::records_more, font_bytes::proofs::Recorded::records_end))]
fn read_row(
    alloc: Global,
    is_backward: bool,
    table: &[u8],
    at: usize,
    inner: Steps,
) -> Result<Vec<PairValues>, AllocError>
    requires at { at < 2 ^ 63 + 2 ^ 34 }
    requires count { inner.count ≤ 2 ^ 16 }
    ensures { IfOk result (λ v. v.items
        ≡ records (λ o. kern_values is_backward (distance_at table.now o)) inner.width at inner.count) }
{
    let mut values = Vec::with_capacity(alloc, inner.count)?;
    for index in 0..inner.count {
        values.push(values_at(is_backward, table, at + usize::from(inner.width) * index))?;
    }
    Ok(values)
}

/// The records of the array, a row of them for each step of the outer width.
#[tactic(auto, using(font_bytes::proofs::Recorded::records_more, font_bytes::proofs::Recorded::records_end))]
fn read_records(
    alloc: Global,
    is_backward: bool,
    table: &[u8],
    at: usize,
    outer: Steps,
    inner: Steps,
) -> Result<Vec<Class1Record>, AllocError>
    requires at { at < 2 ^ 63 + 2 ^ 17 }
    requires outer { outer.count ≤ 2 ^ 16 }
    requires inner { inner.count ≤ 2 ^ 16 }
    ensures { IfOk result (λ v. v.items
        ≡ class_records is_backward table.now at outer.width outer.count inner.width inner.count) }
{
    let mut rows = Vec::with_capacity(alloc, outer.count)?;
    for index in 0..outer.count {
        let values = read_row(
            alloc,
            is_backward,
            table,
            at + usize::from(outer.width) * index,
            inner,
        )?;
        rows.push(Class1Record {
            class2_records: Array::new(values),
        })?;
    }
    Ok(rows)
}

/// The glyphs of some rows.
fn glyphs_of(alloc: Global, rows: &[GlyphRow<u16>]) -> Result<Vec<u16>, AllocError>
    ensures { IfOk result (λ v. v.items ≡ map (λ r. r.glyph) rows.now) }
{
    let mut glyphs = Vec::with_capacity(alloc, rows.len())?;
    for row in rows {
        glyphs.push(row.glyph)?;
    }
    Ok(glyphs)
}

/// The glyphs below a number.
fn all_glyphs(alloc: Global, count: usize) -> Result<Vec<u16>, AllocError>
    requires { count ≤ 65536 }
    ensures { IfOk result (λ v. v.items ≡ records (λ g. g) 1 0 count) }
{
    let mut glyphs = Vec::with_capacity(alloc, count)?;
    for glyph in 0..count {
        glyphs.push(glyph as u16)?;
    }
    Ok(glyphs)
}

/// Pairs of classes in one direction, from the glyphs that come first, the classes of both glyphs and their records.
fn class_kerning(
    alloc: Global,
    firsts: Vec<u16>,
    class1: SortedRows<GlyphRow<u16>>,
    class2: SortedRows<GlyphRow<u16>>,
    records: Vec<Class1Record>,
) -> Result<Kerning, AllocError>
    ensures { IfOk result (λ k. k ≡ class_kerning (class_pairs firsts.items class1 class2 records.items)) }
{
    let covered = firsts.as_slice().to_vec(alloc)?;
    let coverage = Coverage::new(alloc, covered)?;
    let firsts = Coverage::new(alloc, firsts)?;
    let class_def1 = ClassDefinition::new(alloc, class1)?;
    let class_def2 = ClassDefinition::new(alloc, class2)?;
    Ok(Kerning {
        firsts,
        pairs: PairPos::Classes(ClassPairs {
            coverage,
            class_def1,
            class_def2,
            records: Array::new(records),
        }),
    })
}

fn forward_kerning(
    alloc: Global,
    table: &[u8],
    header: ClassHeader,
    lefts: SortedRows<GlyphRow<u16>>,
    rights: SortedRows<GlyphRow<u16>>,
) -> Result<Kerning, AllocError>
    requires { header.array_at < 2 ^ 63 + 2 ^ 17 }
    ensures { IfOk result (λ k. k ≡ forward_kerning table.now header lefts rights) }
{
    let outer = Steps {
        width: header.width,
        count: class_count(lefts.as_slice()),
    };
    let inner = Steps {
        width: 2,
        count: usize::from(header.width / 2),
    };
    let records = read_records(alloc, false, table, header.array_at, outer, inner)?;
    let firsts = glyphs_of(alloc, lefts.as_slice())?;
    class_kerning(alloc, firsts, lefts, rights, records)
}

fn backward_kerning(
    alloc: Global,
    table: &[u8],
    header: ClassHeader,
    lefts: SortedRows<GlyphRow<u16>>,
    rights: SortedRows<GlyphRow<u16>>,
) -> Result<Kerning, AllocError>
    requires { header.array_at < 2 ^ 63 + 2 ^ 17 }
    ensures { IfOk result (λ k. k ≡ backward_kerning table.now header lefts rights) }
{
    let outer = Steps {
        width: 2,
        count: usize::from(header.width / 2),
    };
    let inner = Steps {
        width: header.width,
        count: class_count(lefts.as_slice()),
    };
    let records = read_records(alloc, true, table, header.array_at, outer, inner)?;
    let firsts = all_glyphs(alloc, GLYPHS)?;
    class_kerning(alloc, firsts, rights, lefts, records)
}

/// The room that the records of classes take.
fn room_of_classes(rows: usize, columns: u16) -> usize
    requires { rows ≤ 65536 }
    ensures { result ≡ room_of_classes rows columns }
{
    (rows + 1) * (usize::from(columns) + 1)
}

fn kerning_of_classes(
    alloc: Global,
    is_backward: bool,
    table: &[u8],
    header: ClassHeader,
    lefts: SortedRows<GlyphRow<u16>>,
    rights: SortedRows<GlyphRow<u16>>,
    room: &mut Room,
) -> Result<Kerning, TableFault>
    requires { header.array_at < 2 ^ 63 + 2 ^ 17 }
    ensures ok { IfOk result (λ k.
        kerning_of_classes is_backward room.old.left table.now header lefts rights ≡ Ok (k, room.new.left)) }
    ensures refused { IfErr result (λ e. e ≢ TableFault.OutOfMemory
        → kerning_of_classes is_backward room.old.left table.now header lefts rights ≡ Err e) }
{
    room.take(room_of_classes(class_count(lefts.as_slice()), header.width / 2))?;
    if is_backward {
        room.take(GLYPHS)?;
        return Ok(backward_kerning(alloc, table, header, lefts, rights)?);
    }
    Ok(forward_kerning(alloc, table, header, lefts, rights)?)
}

/// Reads format 2, with the glyphs first that come first in the text.
pub fn read_classes(
    alloc: Global,
    is_backward: bool,
    table: &[u8],
    start: usize,
    at: usize,
    room: &mut Room,
) -> Result<Kerning, TableFault>
    requires { start ≤ at }
    ensures ok { IfOk result (λ k.
        classes_at is_backward room.old.left table.now start at ≡ Ok (k, room.new.left)) }
    ensures refused { IfErr result (λ e. e ≢ TableFault.OutOfMemory
        → classes_at is_backward room.old.left table.now start at ≡ Err e) }
{
    need(table, at, 8)?;
    let header = class_header(table, start, at);
    let left_list = read_class_list(alloc, table, header.left_at, room)?;
    let right_list = read_class_list(alloc, table, header.right_at, room)?;
    let lefts = left_classes(alloc, header, &left_list)?;
    let rights = right_classes(alloc, header, &right_list)?;
    kerning_of_classes(alloc, is_backward, table, header, lefts, rights, room)
}
