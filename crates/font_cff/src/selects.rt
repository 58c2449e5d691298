//! FDSelect: the font DICT of each glyph (TN 5176, 19; OpenType, chapter CFF2, format 4).
ghost use Rattle.std.specs.Prelude.{◌≡◌, ◌≢◌, ◌≤◌, ◌<◌, ◌+◌, ◌*◌, ◌-◌, ◌++◌, length, true, IfOk, IfErr, OnOk, Ok, Err};
ghost use Rattle.font_bytes.specs.declared.fault.TableFault.{TableFault};
ghost use Rattle.font_cff.specs.Selects.{listed_selects, range_of_three, range_of_six, is_select, copies, selects_of_three, selects_of_six, selects_of};

use font_bytes::fault::TableFault;
use font_bytes::words::{byte, long, need, word};
use std::alloc::Global;

/// Glyphs from the first one to before the next one, and the index of their font DICT.
#[derive(Clone, Copy, PartialEq, Eq, Debug)]
pub struct SelectRange {
    pub first: u32,
    pub dict: u16,
    pub next: u32,
}

/// Format 0: a byte for each glyph.
#[tactic(auto, using(font_bytes::proofs::Recorded::records_more, font_bytes::proofs::Recorded::records_end))]
fn read_listed(alloc: Global, table: &[u8], at: usize, count: usize) -> Result<Vec<u16>, TableFault>
    ensures ok { IfOk result (λ v. listed_selects table.now at count ≡ Ok v.items) }
    ensures refused { IfErr result (λ e. e ≢ TableFault.OutOfMemory → listed_selects table.now at count ≡ Err e) }
{
    need(table, at, count)?;
    let mut selects = Vec::with_capacity(alloc, count)?;
    for index in 0..count {
        selects.push(u16::from(byte(table, at + 1 * index)))?;
    }
    Ok(selects)
}

/// The range at an offset of format 3; what comes after it begins with the next glyph.
fn range_of_three(table: &[u8], at: usize) -> SelectRange
    requires { at + 5 ≤ length table.now }
    ensures { result ≡ range_of_three table.now at }
{
    SelectRange {
        first: u32::from(word(table, at)),
        dict: u16::from(byte(table, at + 2)),
        next: u32::from(word(table, at + 3)),
    }
}

/// The range at an offset of format 4.
fn range_of_six(table: &[u8], at: usize) -> SelectRange
    requires { at + 10 ≤ length table.now }
    ensures { result ≡ range_of_six table.now at }
{
    SelectRange {
        first: long(table, at),
        dict: word(table, at + 4),
        next: long(table, at + 6),
    }
}

/// Whether a range may follow the glyphs before one: it begins there and has glyphs.
fn is_select(range: SelectRange, first: u32) -> bool
    ensures value { result ≡ is_select first range }
    ensures rises { result ≡ true → range.first ≤ range.next }
{
    range.first == first && range.first < range.next && range.next <= 65536
}

/// Appends n copies of the index of a font DICT.
#[tactic(auto, using(crate::proofs::Lists::copy_pushed))]
fn push_copies(selects: &mut Vec<u16>, dict: u16, count: u32) -> Result<(), TableFault>
    ensures ok { OnOk result (selects.new.items ≡ selects.old.items ++ copies dict count) }
    ensures refused { IfErr result (λ e. e ≡ TableFault.OutOfMemory) }
{
    for index in 0..count {
        selects.push(dict)?;
    }
    Ok(())
}

/// Format 3: ranges of three bytes, and the sentinel.
#[tactic(auto, using(font_bytes::proofs::Recorded::records_more, font_bytes::proofs::Recorded::records_end))]
fn read_threes(alloc: Global, table: &[u8], at: usize) -> Result<Vec<u16>, TableFault>
    ensures ok { IfOk result (λ v. selects_of_three table.now at ≡ Ok v.items) }
    ensures refused { IfErr result (λ e. e ≢ TableFault.OutOfMemory → selects_of_three table.now at ≡ Err e) }
{
    need(table, at, 2)?;
    let count = usize::from(word(table, at));
    need(table, at + 2, 3 * count + 2)?;
    let mut selects = Vec::new(alloc);
    let mut first = 0;
    for index in 0..count {
        let range = range_of_three(table, at + 2 + 3 * index);
        if !is_select(range, first) {
            return Err(TableFault::Order(at));
        }
        push_copies(&mut selects, range.dict, range.next - range.first)?;
        first = range.next;
    }
    Ok(selects)
}

/// Format 4: ranges of six bytes, and the sentinel.
#[tactic(auto, using(font_bytes::proofs::Recorded::records_more, font_bytes::proofs::Recorded::records_end))]
fn read_sixes(alloc: Global, table: &[u8], at: usize) -> Result<Vec<u16>, TableFault>
    ensures ok { IfOk result (λ v. selects_of_six table.now at ≡ Ok v.items) }
    ensures refused { IfErr result (λ e. e ≢ TableFault.OutOfMemory → selects_of_six table.now at ≡ Err e) }
{
    need(table, at, 4)?;
    let count = long(table, at) as usize;
    need(table, at + 4, 6 * count + 4)?;
    let mut selects = Vec::new(alloc);
    let mut first = 0;
    for index in 0..count {
        let range = range_of_six(table, at + 4 + 6 * index);
        if !is_select(range, first) {
            return Err(TableFault::Order(at));
        }
        push_copies(&mut selects, range.dict, range.next - range.first)?;
        first = range.next;
    }
    Ok(selects)
}

/// The index of the font DICT of each glyph, by the FDSelect at an offset.
pub fn read_selects(
    alloc: Global,
    table: &[u8],
    at: usize,
    count: usize,
) -> Result<Vec<u16>, TableFault>
    ensures ok { IfOk result (λ v. selects_of table.now at count ≡ Ok v.items) }
    ensures refused { IfErr result (λ e. e ≢ TableFault.OutOfMemory → selects_of table.now at count ≡ Err e) }
{
    need(table, at, 1)?;
    match byte(table, at) {
        0 => read_listed(alloc, table, at + 1, count),
        3 => read_threes(alloc, table, at + 1),
        4 => read_sixes(alloc, table, at + 1),
        _ => Err(TableFault::Kind(at)),
    }
}
