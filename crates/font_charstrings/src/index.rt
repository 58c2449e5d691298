//! INDEX: an array of objects of any lengths (TN 5176, 5; in CFF2 with a count of four bytes).
ghost use Rattle.std.specs.Prelude.{◌≡◌, ◌≤◌, ◌<◌, ◌+◌, ◌*◌, length, IfOk, Ok, Err};
ghost use Rattle.font_charstrings.specs.Index.{offset_of, count_width, count_of, no_objects, index_at, index_end, span_of, object};

use font_bytes::fault::TableFault;
use font_bytes::words::{byte, long, need, triple, word};

/// An INDEX: how many objects, the width of an offset, where the offsets are and where they count from.
#[derive(Clone, Copy, PartialEq, Eq, Debug)]
pub struct Index {
    pub count: u32,
    pub size: u8,
    pub offsets: u32,
    pub base: u32,
}

/// Bytes of the table from one offset to another.
#[derive(Clone, Copy, PartialEq, Eq, Debug)]
pub struct Span {
    pub at: usize,
    pub end: usize,
}

/// The number of one to four bytes at an offset.
fn offset_of(table: &[u8], size: u8, at: usize) -> u32
    requires { at + size ≤ length table.now }
    ensures { result ≡ offset_of table.now size at }
{
    if size == 1 {
        return u32::from(byte(table, at));
    }
    if size == 2 {
        return u32::from(word(table, at));
    }
    if size == 3 {
        return triple(table, at);
    }
    if size == 4 {
        return long(table, at);
    }
    0
}

/// The width of an INDEX's count.
fn count_width(is_cff2: bool) -> usize
    ensures value { result ≡ count_width is_cff2 }
    ensures small { result ≤ 4 }
{
    if is_cff2 {
        return 4;
    }
    2
}

/// An INDEX's count.
fn count_of(table: &[u8], at: usize, is_cff2: bool) -> u32
    requires { at + count_width is_cff2 ≤ length table.now }
    ensures { result ≡ count_of table.now at is_cff2 }
{
    if is_cff2 {
        return long(table, at);
    }
    u32::from(word(table, at))
}

/// No objects.
pub fn no_objects() -> Index
    ensures { result ≡ no_objects }
{
    Index {
        count: 0,
        size: 1,
        offsets: 0,
        base: 0,
    }
}

/// The INDEX at an offset.
#[tactic(auto, unfolding(crate::specs::Index::index_at))]
pub fn read_index(table: &[u8], at: usize, is_cff2: bool) -> Result<Index, TableFault>
    ensures { result ≡ index_at table.now at is_cff2 }
{
    let width = count_width(is_cff2);
    need(table, at, width)?;
    let count = count_of(table, at, is_cff2);
    if count == 0 {
        return Ok(no_objects());
    }
    need(table, at + width, 1)?;
    let size = byte(table, at + width);
    if size < 1 || size > 4 {
        return Err(TableFault::Kind(at));
    }
    let length = (count as usize + 1) * usize::from(size);
    need(table, at + width + 1, length)?;
    let base = at + width + length;
    if base > 0xffff_ffff {
        return Err(TableFault::TooLarge);
    }
    Ok(Index {
        count,
        size,
        offsets: (at + width + 1) as u32,
        base: base as u32,
    })
}

/// Where the INDEX at an offset ends.
#[tactic(auto, unfolding(crate::specs::Index::index_end))]
pub fn index_end(table: &[u8], at: usize, is_cff2: bool) -> Result<usize, TableFault>
    ensures { result ≡ index_end table.now at is_cff2 }
{
    let index = read_index(table, at, is_cff2)?;
    if index.count == 0 {
        need(table, at, count_width(is_cff2))?;
        return Ok(at + count_width(is_cff2));
    }
    let last = index.offsets as usize + usize::from(index.size) * index.count as usize;
    need(table, last, usize::from(index.size))?;
    Ok(index.base as usize + offset_of(table, index.size, last) as usize)
}

/// The bytes from one offset to another.
fn span_of(table: &[u8], at: usize, end: usize) -> Result<Span, TableFault>
    ensures value { result ≡ span_of table.now at end }
    ensures within { IfOk result (λ s. (s.at ≤ s.end) × (s.end ≤ length table.now)) }
{
    if at > end {
        return Err(TableFault::Order(at));
    }
    need(table, at, end - at)?;
    Ok(Span { at, end })
}

/// The bytes of the object with an index.
#[tactic(auto, unfolding(crate::specs::Index::object))]
pub fn object(table: &[u8], index: Index, number: usize) -> Result<Span, TableFault>
    ensures value { result ≡ object table.now index number }
    ensures within { IfOk result (λ s. (s.at ≤ s.end) × (s.end ≤ length table.now)) }
{
    if number >= index.count as usize {
        return Err(TableFault::Kind(index.offsets as usize));
    }
    let size = usize::from(index.size);
    let at = index.offsets as usize + size * number;
    need(table, at, size + size)?;
    let base = index.base as usize;
    let start = base + offset_of(table, index.size, at) as usize;
    let end = base + offset_of(table, index.size, at + size) as usize;
    span_of(table, start, end)
}
