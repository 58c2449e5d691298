//! Classes of pair adjustment subtables (OpenType, GPOS lookup type 2, format 2).
ghost use Rattle.std.specs.Prelude.{◌≡◌, ◌≢◌, ◌≤◌, ◌<◌, ◌+◌, ◌*◌, IfOk, IfErr, IsTrue, ◌↔◌, Ok, Err, length, filter, nat_lt};
ghost use Rattle.std.specs.List.{list_all};
ghost use Rattle.layout_common.specs.Coverage.{in_order};
ghost use Rattle.font_positioning.specs.Pairs.{pair_values, pair_size};
ghost use Rattle.font_positioning.specs.ClassPairs.{class_rows, rows_below, has_records, class2_records, class1_records};

use crate::pair_sets::{PairFormat, pair_size, pair_values};
use buffer_rows::SortedRows;
use font_bytes::fault::TableFault;
use font_bytes::room::Room;
use font_common::read_class_rows;
use layout_common::array::Array;
use layout_common::class_definition::ClassDefinition;
use layout_common::coverage::Coverage;
use layout_common::glyph_row::{GlyphRow, find_value};
use layout_tables::pair::Class1Record;
use std::alloc::{AllocError, Global};

/// Reads the rows of the class definition table at an offset from the subtable's start; a null offset has none.
pub(crate) fn read_class_rows_from(
    alloc: Global,
    table: &[u8],
    start: usize,
    offset: u16,
    room: &mut Room,
) -> Result<SortedRows<GlyphRow<u16>>, TableFault>
    requires { start ≤ length table.now }
    ensures ok { IfOk result (λ v. class_rows room.old.left table.now start offset ≡ Ok (v, room.new.left)) }
    ensures refused { IfErr result (λ e. e ≢ TableFault.OutOfMemory
        → class_rows room.old.left table.now start offset ≡ Err e) }
{
    if offset == 0 {
        return Ok(SortedRows::new(Vec::new(alloc)));
    }
    read_class_rows(alloc, table, start + usize::from(offset), room)
}

/// Whether all rows have a class that has records.
fn are_below(rows: &[GlyphRow<u16>], count: u16) -> bool
    ensures { result ≡ list_all (λ r. nat_lt r.value count) rows.now }
{
    rows.iter().all(|row| row.value < count)
}

/// The rows whose class has records.
fn kept_rows(
    alloc: Global,
    rows: &[GlyphRow<u16>],
    count: u16,
) -> Result<Vec<GlyphRow<u16>>, AllocError>
    ensures { IfOk result (λ v. v.items ≡ rows_below count rows.now) }
{
    rows.iter()
        .copied()
        .filter(|row| row.value < count)
        .collect(alloc)
}

/// The classes that have records.
#[tactic(auto, using(crate::proofs::KeptRows::all_kept, crate::proofs::KeptRows::kept_rise))]
pub(crate) fn classes_below(
    alloc: Global,
    rows: SortedRows<GlyphRow<u16>>,
    count: u16,
) -> Result<ClassDefinition, AllocError>
    ensures { IfOk result (λ c. c ≡ record { rows = rows_below count rows }) }
{
    if are_below(rows.as_slice(), count) {
        return ClassDefinition::new(alloc, rows);
    }
    let kept = kept_rows(alloc, rows.rising_rows(), count)?;
    ClassDefinition::new(alloc, SortedRows::new(kept))
}

/// Whether a glyph's class has records.
fn has_records(rows: &SortedRows<GlyphRow<u16>>, count: u16, glyph: u16) -> bool
    ensures { result ≡ has_records rows.now count glyph }
{
    find_value(rows, glyph).unwrap_or(0) < count
}

/// The first glyphs whose class has records.
pub(crate) fn first_glyphs(
    alloc: Global,
    glyphs: &[u16],
    rows: &SortedRows<GlyphRow<u16>>,
    count: u16,
) -> Result<Coverage, AllocError>
    ensures { IfOk result (λ c. c ≡ in_order (filter (has_records rows.now count) glyphs.now)) }
{
    let kept = glyphs
        .iter()
        .copied()
        .filter(|glyph| has_records(rows, count, *glyph))
        .collect(alloc)?;
    Coverage::new(alloc, kept)
}

/// Reads the records of a first class: those of n second classes.
fn read_class2_records(
    format: PairFormat,
    alloc: Global,
    table: &[u8],
    at: usize,
    count: usize,
) -> Result<Class1Record, AllocError>
    requires { at + pair_size format.first format.second * count ≤ length table.now }
    ensures { IfOk result (λ r. r ≡ class2_records format.first format.second table.now count at) }
{
    let mut records = Vec::with_capacity(alloc, count)?;
    let size = pair_size(format);
    let mut at = at;
    for _index in 0..count {
        records.push(pair_values(format, table, at))?;
        at += size;
    }
    Ok(Class1Record {
        class2_records: Array::new(records),
    })
}

/// How many bytes the records of a first class have.
pub(crate) fn row_size(format: PairFormat, count: u16) -> usize
    ensures value { result ≡ pair_size format.first format.second * count }
    ensures few { result ≤ 5242880 }
{
    pair_size(format) * usize::from(count)
}

/// Reads the records of n first classes.
pub(crate) fn read_class1_records(
    format: PairFormat,
    alloc: Global,
    table: &[u8],
    at: usize,
    count1: u16,
    count2: u16,
) -> Result<Vec<Class1Record>, AllocError>
    requires { at + pair_size format.first format.second * count2 * count1 ≤ length table.now }
    ensures { IfOk result (λ v. v.items ≡ class1_records format.first format.second table.now count1 count2 at) }
{
    let mut records = Vec::with_capacity(alloc, usize::from(count1))?;
    let size = row_size(format, count2);
    let mut at = at;
    for _index in 0..usize::from(count1) {
        let record = read_class2_records(format, alloc, table, at, usize::from(count2))?;
        records.push(record)?;
        at += size;
    }
    Ok(records)
}
