//! Pair adjustment subtables by glyphs (OpenType, GPOS lookup type 2, format 1).
ghost use Rattle.std.specs.Prelude.{◌≡◌, ◌≢◌, ◌≤◌, ◌<◌, ◌+◌, ◌*◌, ◌++◌, ◌&&◌, nat_le, IfOk, IfErr, OnOk, Ok, Err, length};
ghost use Rattle.font_common.specs.Offsets.{after};
ghost use Rattle.font_records.specs.Covered.{rows_if};
ghost use Rattle.font_positioning.specs.Values.{value_size};
ghost use Rattle.font_positioning.specs.Pairs.{second_value, pair_values, pair_size, pair_row, pair_array, by_second, pair_set, set_rows, pairs_in, glyph_pairs, seconds_never_fall};

use crate::values::{value_at, value_size};
use font_bytes::fault::TableFault;
use font_bytes::room::Room;
use font_bytes::words::{need, word};
use font_common::read_glyphs_in_room;
use font_common::rows::first_rows;
use layout_tables::pair::{PairRow, PairValues};
use layout_tables::pair_rows::PairRows;
use layout_tables::value::ValueRecord;
use std::alloc::Global;

/// The value formats of a subtable's pairs.
#[derive(Clone, Copy)]
pub(crate) struct PairFormat {
    pub first: u16,
    pub second: u16,
}

/// How many bytes the value records of a pair have.
pub(crate) fn pair_size(format: PairFormat) -> usize
    ensures value { result ≡ pair_size format.first format.second }
    ensures few { result ≤ 80 }
{
    value_size(format.first) + value_size(format.second)
}

/// The second value record, none where the subtable has no format for it.
fn second_value(format: u16, table: &[u8], at: usize) -> Option<ValueRecord>
    requires { at + value_size format ≤ length table.now }
    ensures { result ≡ second_value format table.now at }
{
    if format == 0 {
        return None;
    }
    Some(value_at(format, table, at))
}

/// The value records of a pair.
pub(crate) fn pair_values(format: PairFormat, table: &[u8], at: usize) -> PairValues
    requires { at + pair_size format.first format.second ≤ length table.now }
    ensures { result ≡ pair_values format.first format.second table.now at }
{
    PairValues {
        first: value_at(format.first, table, at),
        second: second_value(format.second, table, at + value_size(format.first)),
    }
}

/// The row of a pair value record.
fn pair_row(format: PairFormat, table: &[u8], first: u16, at: usize) -> PairRow
    requires { at + (2 + pair_size format.first format.second) ≤ length table.now }
    ensures { result ≡ pair_row format.first format.second table.now first at }
{
    PairRow {
        first,
        second: word(table, at),
        values: pair_values(format, table, at + 2),
    }
}

/// Whether second glyphs still never fall.
fn is_next(in_order: bool, least: u16, second: u16) -> bool
    ensures { result ≡ (in_order && nat_le least second) }
{
    in_order && least <= second
}

/// Appends the rows of an array of pair value records; whether second glyphs never fall is the answer.
fn push_pairs(
    format: PairFormat,
    table: &[u8],
    first: u16,
    at: usize,
    count: usize,
    rows: &mut Vec<PairRow>,
) -> Result<bool, TableFault>
    requires { at + (2 + pair_size format.first format.second) * count ≤ length table.now }
    ensures order { IfOk result (λ b. b
        ≡ seconds_never_fall 0 (pair_array format.first format.second table.now first at count)) }
    ensures rows { OnOk result (rows.new.items
        ≡ rows.old.items ++ pair_array format.first format.second table.now first at count) }
    ensures refused { IfErr result (λ e. e ≡ TableFault.OutOfMemory) }
{
    rows.reserve(count)?;
    let width = 2 + pair_size(format);
    let mut at = at;
    let mut least = 0;
    let mut in_order = true;
    for _index in 0..count {
        let row = pair_row(format, table, first, at);
        in_order = is_next(in_order, least, row.second);
        least = row.second;
        rows.push(row)?;
        at += width;
    }
    Ok(in_order)
}

/// Sorts rows by their second glyphs; those of one pair keep their order.
fn sort_by_second(rows: &mut Vec<PairRow>) -> Result<(), TableFault>
    ensures sorted { OnOk result (rows.new.items ≡ by_second rows.old.items) }
    ensures refused { IfErr result (λ e. e ≡ TableFault.OutOfMemory) }
{
    rows.sort_by_key(|row| row.second)?;
    Ok(())
}

/// Appends the rows of an array whose second glyphs fall, in the order of these.
fn push_sorted(
    format: PairFormat,
    alloc: Global,
    table: &[u8],
    first: u16,
    at: usize,
    count: usize,
    rows: &mut Vec<PairRow>,
) -> Result<(), TableFault>
    requires { at + (2 + pair_size format.first format.second) * count ≤ length table.now }
    ensures rows { OnOk result (rows.new.items
        ≡ rows.old.items ++ by_second (pair_array format.first format.second table.now first at count)) }
    ensures refused { IfErr result (λ e. e ≡ TableFault.OutOfMemory) }
{
    let mut set = Vec::new(alloc);
    let _in_order = push_pairs(format, table, first, at, count, &mut set)?;
    sort_by_second(&mut set)?;
    rows.extend_from_slice(&set)?;
    Ok(())
}

/// Appends the rows of an array, in the order of their second glyphs.
#[tactic(auto, using(crate::proofs::PairSets::in_order_same))]
fn push_in_order(
    format: PairFormat,
    alloc: Global,
    table: &[u8],
    first: u16,
    at: usize,
    count: usize,
    rows: &mut Vec<PairRow>,
) -> Result<(), TableFault>
    requires { at + (2 + pair_size format.first format.second) * count ≤ length table.now }
    ensures rows { OnOk result (rows.new.items
        ≡ rows.old.items ++ by_second (pair_array format.first format.second table.now first at count)) }
    ensures refused { IfErr result (λ e. e ≡ TableFault.OutOfMemory) }
{
    let before = rows.len();
    if push_pairs(format, table, first, at, count, rows)? {
        return Ok(());
    }
    rows.truncate(before);
    push_sorted(format, alloc, table, first, at, count, rows)
}

/// Appends the rows of the pair set at an offset.
fn push_set(
    format: PairFormat,
    alloc: Global,
    table: &[u8],
    at: usize,
    first: u16,
    room: &mut Room,
    rows: &mut Vec<PairRow>,
) -> Result<(), TableFault>
    ensures ok { OnOk result (after rows.old.items (pair_set format.first format.second table.now room.old.left at first)
        ≡ Ok (rows.new.items, room.new.left)) }
    ensures refused { IfErr result (λ e. e ≢ TableFault.OutOfMemory
        → pair_set format.first format.second table.now room.old.left at first ≡ Err e) }
{
    need(table, at, 2)?;
    let count = usize::from(word(table, at));
    need(table, at + 2, (2 + pair_size(format)) * count)?;
    room.take(count)?;
    push_in_order(format, alloc, table, first, at + 2, count, rows)
}

/// Appends the rows of the pair set whose offset from the subtable's start stands at an offset; a null one has none.
fn push_set_at(
    format: PairFormat,
    alloc: Global,
    start: usize,
    table: &[u8],
    at: usize,
    first: u16,
    room: &mut Room,
    rows: &mut Vec<PairRow>,
) -> Result<(), TableFault>
    requires within { at + 2 ≤ length table.now }
    requires start { start ≤ length table.now }
    ensures ok { OnOk result (after rows.old.items (set_rows format.first format.second start table.now room.old.left at first)
        ≡ Ok (rows.new.items, room.new.left)) }
    ensures refused { IfErr result (λ e. e ≢ TableFault.OutOfMemory
        → set_rows format.first format.second start table.now room.old.left at first ≡ Err e) }
{
    let offset = word(table, at);
    if offset == 0 {
        return Ok(());
    }
    push_set(
        format,
        alloc,
        table,
        start + usize::from(offset),
        first,
        room,
        rows,
    )
}

/// Appends the rows of a first glyph, none of one below the least, which is a repeated one.
fn push_first(
    format: PairFormat,
    alloc: Global,
    start: usize,
    table: &[u8],
    at: usize,
    first: u16,
    least: u32,
    room: &mut Room,
    rows: &mut Vec<PairRow>,
) -> Result<(), TableFault>
    requires within { at + 2 ≤ length table.now }
    requires start { start ≤ length table.now }
    ensures ok { OnOk result (after rows.old.items (rows_if (set_rows format.first format.second start table.now) least
        room.old.left at first) ≡ Ok (rows.new.items, room.new.left)) }
    ensures refused { IfErr result (λ e. e ≢ TableFault.OutOfMemory
        → rows_if (set_rows format.first format.second start table.now) least room.old.left at first ≡ Err e) }
{
    if u32::from(first) < least {
        return Ok(());
    }
    push_set_at(format, alloc, start, table, at, first, room, rows)
}

/// Reads the rows of first glyphs by an array of offsets of pair sets.
fn read_pairs(
    format: PairFormat,
    alloc: Global,
    start: usize,
    table: &[u8],
    glyphs: &[u16],
    at: usize,
    count: usize,
    room: &mut Room,
) -> Result<Vec<PairRow>, TableFault>
    requires within { at + 2 * count ≤ length table.now }
    requires start { start ≤ length table.now }
    ensures ok { IfOk result (λ v. pairs_in format.first format.second start table.now at count glyphs.now room.old.left
        ≡ Ok (v.items, room.new.left)) }
    ensures refused { IfErr result (λ e. e ≢ TableFault.OutOfMemory
        → pairs_in format.first format.second start table.now at count glyphs.now room.old.left ≡ Err e) }
{
    let fewer = count.min(glyphs.len());
    let mut rows = Vec::new(alloc);
    let mut at = at;
    let mut least = 0;
    for index in 0..fewer {
        let first = glyphs[index];
        push_first(
            format, alloc, start, table, at, first, least, room, &mut rows,
        )?;
        least = least.max(u32::from(first) + 1);
        at += 2;
    }
    Ok(rows)
}

/// Reads format 1: pairs by glyphs.
pub(crate) fn read_glyph_pairs(
    alloc: Global,
    table: &[u8],
    at: usize,
    room: &mut Room,
) -> Result<PairRows, TableFault>
    ensures ok { IfOk result (λ v. glyph_pairs room.old.left table.now at ≡ Ok (v, room.new.left)) }
    ensures refused { IfErr result (λ e. e ≢ TableFault.OutOfMemory
        → glyph_pairs room.old.left table.now at ≡ Err e) }
{
    need(table, at, 10)?;
    let format = PairFormat {
        first: word(table, at + 4),
        second: word(table, at + 6),
    };
    let count = usize::from(word(table, at + 8));
    need(table, at + 10, 2 * count)?;
    room.take(count)?;
    let glyphs = read_glyphs_in_room(alloc, table, at, u32::from(word(table, at + 2)), room)?;
    let rows = read_pairs(format, alloc, at, table, &glyphs, at + 10, count, room)?;
    let rows = first_rows(alloc, rows)?;
    let rows = PairRows::new(alloc, rows)?;
    Ok(rows)
}
