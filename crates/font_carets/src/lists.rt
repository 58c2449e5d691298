//! Reads the ligature caret list (OpenType, GDEF, LigCaretList table).
ghost use Rattle.std.specs.Prelude.{◌≡◌, ◌≢◌, ◌≤◌, ◌+◌, ◌*◌, ◌↔◌, IfOk, IfErr, IsTrue, Ok, Err, length};
ghost use Rattle.font_bytes.specs.declared.fault.TableFault.{TableFault};
ghost use Rattle.font_bytes.specs.Words.{word};
ghost use Rattle.font_bytes.specs.Records.{records};
ghost use Rattle.font_carets.specs.Lists.{caret_list, caret_record, caret_value, carets_at_offset, has_offsets, ligature_at, ligature_carets_at, ligature_row, list_offset, value_of_format};

use crate::rows::{LigatureCarets, no_ligatures};
use buffer_rows::SortedRows;
use font_bytes::fault::TableFault;
use font_bytes::room::Room;
use font_bytes::words::{fits, need, signed_word, word};
use font_records::{RowReader, read_covered_rows};
use layout_common::array::Array;
use std::alloc::Global;

/// The coordinate of a caret value of a format.
fn value_of_format(table: &[u8], at: usize, format: u16) -> i16
    requires { at + 4 ≤ length table.now }
    ensures { result ≡ value_of_format table.now at format }
{
    if format == 1 {
        return signed_word(table, at + 2);
    }
    if format == 3 && fits(table, at, 6) {
        return signed_word(table, at + 2);
    }
    0
}

/// The coordinate of the caret value at an offset.
fn caret_value(table: &[u8], at: usize) -> i16
    ensures { result ≡ caret_value table.now at }
{
    if !fits(table, at, 4) {
        return 0;
    }
    value_of_format(table, at, word(table, at))
}

/// The coordinate of the caret value whose offset is at an offset.
fn caret_record(table: &[u8], start: usize, at: usize) -> i16
    requires start { start ≤ length table.now }
    requires within { at + 2 ≤ length table.now }
    ensures { result ≡ caret_record table.now start at }
{
    let offset = word(table, at);
    if offset == 0 {
        return 0;
    }
    caret_value(table, start + usize::from(offset))
}

/// Reads the caret values of an array of n offsets, which count from a start.
#[tactic(auto, using(font_bytes::proofs::Recorded::records_more, font_bytes::proofs::Recorded::records_end))]
fn read_caret_array(
    alloc: Global,
    table: &[u8],
    start: usize,
    at: usize,
    count: usize,
) -> Result<Vec<i16>, TableFault>
    requires start { start ≤ length table.now }
    requires within { at + 2 * count ≤ length table.now }
    ensures ok { IfOk result (λ v. v.items ≡ records (caret_record table.now start) 2 at count) }
    ensures refused { IfErr result (λ e. e ≡ TableFault.OutOfMemory) }
{
    let mut carets = Vec::with_capacity(alloc, count)?;
    for index in 0..count {
        carets.push(caret_record(table, start, at + 2 * index))?;
    }
    Ok(carets)
}

/// Whether a table has all offsets of the ligature's table at an offset.
fn has_offsets(table: &[u8], at: usize) -> bool
    ensures value { result ≡ has_offsets table.now at }
    ensures within { IsTrue result → at + 2 + 2 * word table.now at ≤ length table.now }
{
    fits(table, at, 2) && fits(table, at + 2, 2 * usize::from(word(table, at)))
}

/// Reads the carets of the ligature's table at an offset.
fn read_ligature(
    alloc: Global,
    table: &[u8],
    at: usize,
    room: &mut Room,
) -> Result<Vec<i16>, TableFault>
    ensures ok { IfOk result (λ v. ligature_at room.old.left table.now at ≡ Ok (v.items, room.new.left)) }
    ensures refused { IfErr result (λ e. e ≢ TableFault.OutOfMemory → ligature_at room.old.left table.now at ≡ Err e) }
{
    if !has_offsets(table, at) {
        return Ok(Vec::new(alloc));
    }
    let count = usize::from(word(table, at));
    room.take(count)?;
    read_caret_array(alloc, table, at, at + 2, count)
}

/// Reads the carets of the ligature's table at an offset from the list's start.
fn read_carets(
    alloc: Global,
    table: &[u8],
    start: usize,
    offset: u16,
    room: &mut Room,
) -> Result<Vec<i16>, TableFault>
    requires { start ≤ length table.now }
    ensures ok { IfOk result (λ v. carets_at_offset table.now start room.old.left offset ≡ Ok (v.items, room.new.left)) }
    ensures refused { IfErr result (λ e. e ≢ TableFault.OutOfMemory
        → carets_at_offset table.now start room.old.left offset ≡ Err e) }
{
    if offset == 0 {
        return Ok(Vec::new(alloc));
    }
    read_ligature(alloc, table, start + usize::from(offset), room)
}

/// Reads rows whose records are offsets of ligatures' tables from the list's start.
#[derive(Clone, Copy)]
struct LigatureRows {
    start: usize,
}

impl RowReader for LigatureRows {
    type Row = LigatureCarets;

    ghost glyph_of = { λ r. r.glyph };

    ghost width_of = { λ _. 2 };

    ghost base_of = { λ s. s.start };

    ghost row_at = { λ s. ligature_row s.start };

    fn width(&self) -> usize {
        2
    }

    fn read_row(
        &self,
        alloc: Global,
        table: &[u8],
        at: usize,
        glyph: u16,
        room: &mut Room,
    ) -> Result<Option<LigatureCarets>, TableFault> {
        let carets = read_carets(alloc, table, self.start, word(table, at), room)?;
        Ok(Some(LigatureCarets {
            glyph,
            carets: Array::new(carets),
        }))
    }
}

/// Reads the ligature caret list at an offset.
fn read_list(
    alloc: Global,
    table: &[u8],
    at: usize,
    room: &mut Room,
) -> Result<SortedRows<LigatureCarets>, TableFault>
    ensures ok { IfOk result (λ v. caret_list room.old.left table.now at ≡ Ok (v, room.new.left)) }
    ensures refused { IfErr result (λ e. e ≢ TableFault.OutOfMemory → caret_list room.old.left table.now at ≡ Err e) }
{
    need(table, at, 4)?;
    let count = usize::from(word(table, at + 2));
    need(table, at + 4, 2 * count)?;
    let reader = LigatureRows { start: at };
    let rows = read_covered_rows(
        &reader,
        alloc,
        table,
        at,
        word(table, at),
        at + 4,
        count,
        room,
    )?;
    Ok(SortedRows::new(rows))
}

/// The offset of the ligature caret list of GDEF of major version 1, 0 where it is null.
fn list_offset(table: &[u8]) -> Result<u16, TableFault>
    ensures { result ≡ list_offset table.now }
{
    need(table, 0, 12)?;
    if word(table, 0) != 1 {
        return Err(TableFault::Kind(0));
    }
    Ok(word(table, 8))
}

/// Reads the ligatures of GDEF with their carets. An offset, a glyph of the coverage and a caret each take a row of room.
///
/// # Errors
///
/// `Short` where the header, the list's offsets or its coverage end past the table's end, `Kind` of a major version other
/// than 1, `Order` of a coverage whose glyphs fall, `TooLarge` of more rows than there is room for. A ligature whose table
/// ends past the end has no carets, and a caret value that does has the coordinate 0, as in HarfBuzz.
pub fn read_ligature_carets(
    alloc: Global,
    table: &[u8],
    room: &mut Room,
) -> Result<SortedRows<LigatureCarets>, TableFault>
    ensures ok { IfOk result (λ v. ligature_carets_at room.old.left table.now ≡ Ok (v, room.new.left)) }
    ensures refused { IfErr result (λ e. e ≢ TableFault.OutOfMemory
        → ligature_carets_at room.old.left table.now ≡ Err e) }
{
    let at = list_offset(table)?;
    if at == 0 {
        return Ok(no_ligatures(alloc));
    }
    read_list(alloc, table, usize::from(at), room)
}
