//! The rows of characters by the ranges of a subtable.
ghost use Rattle.std.specs.Prelude.{◌≡◌, ◌≢◌, ◌≤◌, ◌<◌, ◌+◌, ◌-◌, ◌*◌, ◌++◌, length, min, max, IfOk, IfErr, OnOk, Ok, Err};
ghost use Rattle.font_cmap.specs.Ranges.{glyph_in, IsWithin, range_at, form_width};
ghost use Rattle.font_cmap.specs.Rows.{character_row, rows_in, range_count, ranges_of, count_of, rows_of, IsArray};

use crate::ranges::{CharacterRange, RangeArray, form_width, glyph_in, range_at};
use font_bytes::fault::TableFault;
use layout_face::parts::CharacterRow;

/// One more than the last character.
const CHARACTERS: usize = 0x110000;

/// Appends the row of a number, where it is a character and its glyph isn't 0.
#[tactic(auto, unfolding(crate::specs::Rows::character_row))]
pub fn push_row(rows: &mut Vec<CharacterRow>, number: u32, glyph: u16) -> Result<(), TableFault>
    ensures ok { OnOk result (rows.new.items ≡ rows.old.items ++ character_row number glyph) }
    ensures refused { IfErr result (λ e. e ≡ TableFault.OutOfMemory) }
{
    if glyph == 0 {
        return Ok(());
    }
    let Some(character) = char::from_u32(number) else {
        return Ok(());
    };
    rows.push(CharacterRow { character, glyph })?;
    Ok(())
}

/// Appends the rows of some characters of a range, from one on.
#[tactic(auto, using(crate::proofs::Steps::row_pushed, crate::proofs::Steps::rows_end))]
fn push_rows(
    rows: &mut Vec<CharacterRow>,
    table: &[u8],
    range: CharacterRange,
    from: usize,
    count: usize,
) -> Result<(), TableFault>
    requires order { range.first ≤ from }
    requires limit { from + count ≤ max from 1114112 }
    requires within { IsWithin (length table.now) range.rule }
    ensures ok { OnOk result (rows.new.items ≡ rows.old.items ++ rows_in (glyph_in table.now range) from count) }
    ensures refused { IfErr result (λ e. e ≡ TableFault.OutOfMemory) }
{
    for offset in 0..count {
        let glyph = glyph_in(table, range, from + offset);
        push_row(rows, (from + offset) as u32, glyph)?;
    }
    Ok(())
}

/// How many characters of a range aren't below a least one.
#[tactic(auto, unfolding(crate::specs::Rows::range_count))]
fn range_count(least: usize, range: CharacterRange) -> usize
    ensures { result ≡ range_count least range }
{
    let from = least.max(range.first);
    range.end.min(CHARACTERS).saturating_sub(from)
}

/// The range with an index.
fn range_of(table: &[u8], ranges: RangeArray, index: usize) -> CharacterRange
    requires array { IsArray (length table.now) ranges }
    requires index { index < ranges.count }
    ensures value { result ≡ range_at table.now ranges.form (ranges.at + form_width ranges.form * index) }
    ensures within { IsWithin (length table.now) result.rule }
{
    range_at(
        table,
        ranges.form,
        ranges.at + form_width(ranges.form) * index,
    )
}

/// How many characters ranges have, each counted once.
#[tactic(auto, unfolding(crate::specs::Rows::ranges_of, crate::specs::Rows::range_count), using(font_bytes::proofs::Recorded::records_more, font_bytes::proofs::Recorded::records_end))]
pub fn count_characters(table: &[u8], ranges: RangeArray) -> usize
    requires { IsArray (length table.now) ranges }
    ensures { result ≡ count_of 0 (ranges_of table.now ranges) }
{
    let mut count = 0;
    let mut least = 0;
    for index in 0..ranges.count {
        let range = range_of(table, ranges, index);
        count += range_count(least, range);
        least = least.max(range.end);
    }
    count
}

/// Appends the rows of a range's characters that aren't below a least one.
#[tactic(auto, unfolding(crate::specs::Rows::range_count))]
fn push_range(
    rows: &mut Vec<CharacterRow>,
    table: &[u8],
    range: CharacterRange,
    least: usize,
) -> Result<(), TableFault>
    requires within { IsWithin (length table.now) range.rule }
    ensures ok { OnOk result (rows.new.items
        ≡ rows.old.items ++ rows_in (glyph_in table.now range) (max least range.first) (range_count least range)) }
    ensures refused { IfErr result (λ e. e ≡ TableFault.OutOfMemory) }
{
    push_rows(
        rows,
        table,
        range,
        least.max(range.first),
        range_count(least, range),
    )
}

/// Appends the rows of ranges, in the order of their characters, of those that aren't below a least one.
#[tactic(auto, unfolding(crate::specs::Rows::ranges_of), using(font_bytes::proofs::Recorded::records_more, font_bytes::proofs::Recorded::records_end))]
pub fn push_ranges(
    rows: &mut Vec<CharacterRow>,
    table: &[u8],
    ranges: RangeArray,
    start: usize,
) -> Result<(), TableFault>
    requires { IsArray (length table.now) ranges }
    ensures ok { OnOk result (rows.new.items ≡ rows.old.items ++ rows_of table.now start (ranges_of table.now ranges)) }
    ensures refused { IfErr result (λ e. e ≡ TableFault.OutOfMemory) }
{
    let mut least = start;
    for index in 0..ranges.count {
        let range = range_of(table, ranges, index);
        push_range(rows, table, range, least)?;
        least = least.max(range.end);
    }
    Ok(())
}
