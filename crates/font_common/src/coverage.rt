//! Reads coverage tables (OpenType, chapter 2, coverage table).
ghost use Rattle.std.specs.Prelude.{◌≡◌, ◌≢◌, ◌≤◌, ◌<◌, ◌+◌, ◌-◌, ◌*◌, ◌^◌, ◌++◌, length, IfOk, IfErr, OnOk, Ok, Err};
ghost use Rattle.font_bytes.specs.Words.{word};
ghost use Rattle.font_common.specs.Coverage.{is_next, least_after, range_record, glyph_run, listed_glyphs, range_glyphs, glyphs_at, glyphs_at_offset, coverage_at, glyphs_in_room};

use font_bytes::fault::TableFault;
use font_bytes::room::Room;
use font_bytes::words::{need, word};
use layout_common::coverage::Coverage;
use std::alloc::Global;

/// A range record: glyphs from the first to the last one, and the coverage index of the first.
#[derive(Clone, Copy, PartialEq, Eq, Debug)]
pub struct RangeRecord {
    pub first: u16,
    pub last: u16,
    pub start_index: u16,
}

/// The range record at an offset.
pub fn range_record(table: &[u8], at: usize) -> RangeRecord
    requires { at + 6 ≤ length table.now }
    ensures { result ≡ range_record table.now at }
{
    RangeRecord {
        first: word(table, at),
        last: word(table, at + 2),
        start_index: word(table, at + 4),
    }
}

/// Reads the glyphs of format 1.
#[tactic(auto, using(font_bytes::proofs::Recorded::records_more, font_bytes::proofs::Recorded::records_end))]
fn read_listed(alloc: Global, table: &[u8], at: usize) -> Result<Vec<u16>, TableFault>
    requires { at + 4 ≤ length table.now }
    ensures ok { IfOk result (λ v. listed_glyphs table.now at ≡ Ok v.items) }
    ensures refused { IfErr result (λ e. e ≢ TableFault.OutOfMemory
        → listed_glyphs table.now at ≡ Err e) }
{
    let count = usize::from(word(table, at + 2));
    need(table, at + 4, 2 * count)?;
    let mut glyphs = Vec::with_capacity(alloc, count)?;
    let mut least = 0;
    for index in 0..count {
        let glyph = word(table, at + 4 + 2 * index);
        if glyph < least {
            return Err(TableFault::Order(at));
        }
        glyphs.push(glyph)?;
        least = glyph;
    }
    Ok(glyphs)
}

/// Appends the glyphs from one to another, none where that is below it.
#[tactic(auto, using(crate::proofs::Coverages::run_pushed))]
fn push_run(glyphs: &mut Vec<u16>, first: u16, last: u16) -> Result<(), TableFault>
    ensures ok { OnOk result (glyphs.new.items ≡ glyphs.old.items ++ glyph_run first (last + 1 - first)) }
    ensures refused { IfErr result (λ e. e ≡ TableFault.OutOfMemory) }
{
    let count = (u32::from(last) + 1).saturating_sub(u32::from(first));
    for offset in 0..count {
        glyphs.push((u32::from(first) + offset) as u16)?;
    }
    Ok(())
}

/// The numbers from 0 on below a number.
pub fn numbers_below(alloc: Global, count: usize) -> Result<Vec<u16>, TableFault>
    requires { count ≤ 65536 }
    ensures ok { IfOk result (λ v. v.items ≡ glyph_run 0 count) }
    ensures refused { IfErr result (λ e. e ≡ TableFault.OutOfMemory) }
{
    let mut numbers = Vec::with_capacity(alloc, count)?;
    if count == 0 {
        return Ok(numbers);
    }
    push_run(&mut numbers, 0, (count - 1) as u16)?;
    Ok(numbers)
}

/// Reads the glyphs of format 2.
#[tactic(auto, using(font_bytes::proofs::Recorded::records_more, font_bytes::proofs::Recorded::records_end))]
fn read_ranges(alloc: Global, table: &[u8], at: usize) -> Result<Vec<u16>, TableFault>
    requires { at + 4 ≤ length table.now }
    ensures ok { IfOk result (λ v. range_glyphs table.now at ≡ Ok v.items) }
    ensures refused { IfErr result (λ e. e ≢ TableFault.OutOfMemory
        → range_glyphs table.now at ≡ Err e) }
{
    let count = usize::from(word(table, at + 2));
    need(table, at + 4, 6 * count)?;
    let mut glyphs = Vec::new(alloc);
    let mut least = 0;
    for index in 0..count {
        let range = range_record(table, at + 4 + 6 * index);
        if !is_next(range, least, glyphs.len()) {
            return Err(TableFault::Order(at));
        }
        push_run(&mut glyphs, range.first, range.last)?;
        least = least_after(least, range.first, range.last);
    }
    Ok(glyphs)
}

/// The least glyph that the range after one may begin with: the last one of a range with glyphs, else what it was.
pub(crate) fn least_after(least: u16, first: u16, last: u16) -> u16
    ensures { result ≡ least_after least first last }
{
    if first <= last { last } else { least }
}

/// Whether a range may follow: it has no glyphs, or none is below those before it, whose number is its start index.
fn is_next(range: RangeRecord, least: u16, index: usize) -> bool
    ensures { result ≡ is_next least index range }
{
    if range.first <= range.last {
        least <= range.first && usize::from(range.start_index) == index
    } else {
        true
    }
}

/// Reads the glyphs of a coverage table, in the order of their coverage indices.
pub fn read_coverage_glyphs(alloc: Global, table: &[u8], at: usize) -> Result<Vec<u16>, TableFault>
    ensures ok { IfOk result (λ v. glyphs_at table.now at ≡ Ok v.items) }
    ensures refused { IfErr result (λ e. e ≢ TableFault.OutOfMemory
        → glyphs_at table.now at ≡ Err e) }
{
    need(table, at, 4)?;
    match word(table, at) {
        1 => read_listed(alloc, table, at),
        2 => read_ranges(alloc, table, at),
        _ => Ok(Vec::new(alloc)),
    }
}

/// Reads the glyphs of the coverage table at an offset from a base, no glyph where the offset is null.
pub fn read_glyphs_at_offset(
    alloc: Global,
    table: &[u8],
    base: usize,
    offset: u32,
) -> Result<Vec<u16>, TableFault>
    requires { base ≤ length table.now }
    ensures ok { IfOk result (λ v. glyphs_at_offset table.now base offset ≡ Ok v.items) }
    ensures refused { IfErr result (λ e. e ≢ TableFault.OutOfMemory
        → glyphs_at_offset table.now base offset ≡ Err e) }
{
    if offset == 0 {
        return Ok(Vec::new(alloc));
    }
    read_coverage_glyphs(alloc, table, base + offset as usize)
}

/// Reads the glyphs of the coverage table at an offset from a base, which take a row of room each. A null offset leads to
/// no glyph.
pub fn read_glyphs_in_room(
    alloc: Global,
    table: &[u8],
    base: usize,
    offset: u32,
    room: &mut Room,
) -> Result<Vec<u16>, TableFault>
    requires { base ≤ length table.now }
    ensures ok { IfOk result (λ v. glyphs_in_room room.old.left table.now base offset ≡ Ok (v.items, room.new.left)) }
    ensures refused { IfErr result (λ e. e ≢ TableFault.OutOfMemory
        → glyphs_in_room room.old.left table.now base offset ≡ Err e) }
{
    let glyphs = read_glyphs_at_offset(alloc, table, base, offset)?;
    room.take(glyphs.len())?;
    Ok(glyphs)
}

/// Reads a coverage table into a set of glyphs, which takes a row of room for each glyph.
pub fn read_coverage(
    alloc: Global,
    table: &[u8],
    at: usize,
    room: &mut Room,
) -> Result<Coverage, TableFault>
    ensures ok { IfOk result (λ c.
        coverage_at room.old.left table.now at ≡ Ok (c, room.new.left)) }
    ensures refused { IfErr result (λ e. e ≢ TableFault.OutOfMemory
        → coverage_at room.old.left table.now at ≡ Err e) }
{
    let glyphs = read_coverage_glyphs(alloc, table, at)?;
    room.take(glyphs.len())?;
    let coverage = Coverage::new(alloc, glyphs)?;
    Ok(coverage)
}
