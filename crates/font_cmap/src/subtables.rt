//! The ranges and rows of a subtable, by its format.
ghost use Rattle.std.specs.Prelude.{◌≡◌, ◌≢◌, ◌≤◌, ◌+◌, ◌*◌, length, IfOk, IfErr, Ok, Err};
ghost use Rattle.font_cmap.specs.Rows.{IsArray, ranges_of, rows_of};
ghost use Rattle.font_cmap.specs.Subtables.{byte_array, high_byte_table, segment_array, trimmed_array, long_trimmed_array, group_array, IsGroups, ranges_at, rows_of_array};

use crate::ranges::{RangeArray, RangeForm};
use crate::rows::{count_characters, push_ranges};
use font_bytes::fault::TableFault;
use font_bytes::room::Room;
use font_bytes::words::{long, need, word};
use layout_face::parts::CharacterRow;
use std::alloc::Global;

/// Format 0: glyphIdArray at 6.
fn byte_array(table: &[u8], at: usize) -> Result<RangeArray, TableFault>
    requires { at + 2 ≤ length table.now }
    ensures value { result ≡ byte_array table.now at }
    ensures within { IfOk result (λ a. IsArray (length table.now) a) }
{
    need(table, at, 262)?;
    Ok(RangeArray {
        form: RangeForm::ByteArray,
        at: at + 6,
        count: 1,
    })
}

/// Format 2: subHeaderKeys at 6.
fn high_byte_table(table: &[u8], at: usize) -> Result<RangeArray, TableFault>
    requires { at + 2 ≤ length table.now }
    ensures value { result ≡ high_byte_table table.now at }
    ensures within { IfOk result (λ a. IsArray (length table.now) a) }
{
    need(table, at, 518)?;
    Ok(RangeArray {
        form: RangeForm::HighByteTable,
        at: at + 6,
        count: 1,
    })
}

/// Format 4: segCountX2 at 6, segments from 14 on.
fn segment_array(table: &[u8], at: usize) -> Result<RangeArray, TableFault>
    requires { at + 2 ≤ length table.now }
    ensures value { result ≡ segment_array table.now at }
    ensures within { IfOk result (λ a. IsArray (length table.now) a) }
{
    need(table, at, 14)?;
    let count = usize::from(word(table, at + 6) / 2);
    need(table, at + 14, 2 + 8 * count)?;
    Ok(RangeArray {
        form: RangeForm::Segments(count),
        at: at + 14,
        count,
    })
}

/// Format 6: firstCode at 6, entryCount at 8, glyphIdArray at 10.
fn trimmed_array(table: &[u8], at: usize) -> Result<RangeArray, TableFault>
    requires { at + 2 ≤ length table.now }
    ensures value { result ≡ trimmed_array table.now at }
    ensures within { IfOk result (λ a. IsArray (length table.now) a) }
{
    need(table, at, 10)?;
    need(table, at + 10, 2 * usize::from(word(table, at + 8)))?;
    Ok(RangeArray {
        form: RangeForm::Trimmed,
        at: at + 6,
        count: 1,
    })
}

/// Format 10: startCharCode at 12, numChars at 16, glyphIdArray at 20.
fn long_trimmed_array(table: &[u8], at: usize) -> Result<RangeArray, TableFault>
    requires { at + 2 ≤ length table.now }
    ensures value { result ≡ long_trimmed_array table.now at }
    ensures within { IfOk result (λ a. IsArray (length table.now) a) }
{
    need(table, at, 20)?;
    need(table, at + 20, 2 * long(table, at + 16) as usize)?;
    Ok(RangeArray {
        form: RangeForm::LongTrimmed,
        at: at + 12,
        count: 1,
    })
}

/// Formats 12 and 13: numGroups at 12, groups from 16 on.
fn group_array(table: &[u8], at: usize, form: RangeForm) -> Result<RangeArray, TableFault>
    requires within { at + 2 ≤ length table.now }
    requires form { IsGroups form }
    ensures value { result ≡ group_array table.now at form }
    ensures within { IfOk result (λ a. IsArray (length table.now) a) }
{
    need(table, at, 16)?;
    let count = long(table, at + 12) as usize;
    need(table, at + 16, 12 * count)?;
    Ok(RangeArray {
        form,
        at: at + 16,
        count,
    })
}

/// The ranges of the subtable at an offset.
#[tactic(auto, unfolding(crate::specs::Subtables::ranges_at))]
pub fn ranges_at(table: &[u8], at: usize) -> Result<RangeArray, TableFault>
    ensures value { result ≡ ranges_at table.now at }
    ensures within { IfOk result (λ a. IsArray (length table.now) a) }
{
    need(table, at, 2)?;
    match word(table, at) {
        0 => byte_array(table, at),
        2 => high_byte_table(table, at),
        4 => segment_array(table, at),
        6 => trimmed_array(table, at),
        10 => long_trimmed_array(table, at),
        12 => group_array(table, at, RangeForm::Groups),
        13 => group_array(table, at, RangeForm::SameGroups),
        _ => Err(TableFault::Kind(at)),
    }
}

/// Reads the rows of ranges: rising characters whose glyph isn't 0. Each character that a range has takes a row of room.
#[tactic(auto, unfolding(crate::specs::Subtables::rows_of_array))]
pub fn read_range_rows(
    alloc: Global,
    table: &[u8],
    ranges: RangeArray,
    room: &mut Room,
) -> Result<Vec<CharacterRow>, TableFault>
    requires { IsArray (length table.now) ranges }
    ensures ok { IfOk result (λ v. rows_of_array room.old.left table.now ranges ≡ Ok (v.items, room.new.left)) }
    ensures refused { IfErr result (λ e. e ≢ TableFault.OutOfMemory
        → rows_of_array room.old.left table.now ranges ≡ Err e) }
    ensures rows { IfOk result (λ v. v.items ≡ rows_of table.now 0 (ranges_of table.now ranges)) }
{
    let count = count_characters(table, ranges);
    room.take(count)?;
    let mut rows = Vec::with_capacity(alloc, count)?;
    push_ranges(&mut rows, table, ranges, 0)?;
    Ok(rows)
}
