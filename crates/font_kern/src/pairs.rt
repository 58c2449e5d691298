//! Pairs of glyphs and their distances (OpenType, chapter kern, format 0).
ghost use Rattle.std.specs.Prelude.{◌≡◌, ◌≢◌, ◌+◌, ◌≤◌, ◌*◌, ◌-ℤ◌, IfOk, IfErr, OnOk, Ok, Err, length};
ghost use Rattle.std.specs.Int.{int_shr};
ghost use Rattle.buffer_rows.specs.KeyOrder.{key_order};
ghost use Rattle.font_kern.specs.Pairs.{left_value, right_value, kern_values, pair_row, pairs_at, pair_number, rows_of_pairs, firsts_of};

use crate::order::rising_only;
use buffer_rows::{SortedRows, is_above};
use font_bytes::fault::TableFault;
use font_bytes::room::Room;
use font_bytes::words::{need, signed_word, word};
use layout_tables::pair::{PairRow, PairValues};
use layout_tables::value::ValueRecord;
use std::alloc::{AllocError, Global};

/// The half of a distance that is rounded down.
fn half(distance: i16) -> i16
    ensures { result ≡ int_shr distance 1 }
{
    distance >> 1
}

/// The rest of a distance after that half.
fn rest(distance: i16) -> i16
    ensures { result ≡ distance -ℤ int_shr distance 1 }
{
    distance - half(distance)
}

fn left_value(distance: i16) -> ValueRecord
    ensures { result ≡ left_value distance }
{
    ValueRecord {
        x_placement: 0,
        y_placement: 0,
        x_advance: half(distance),
        y_advance: 0,
    }
}

fn right_value(distance: i16) -> ValueRecord
    ensures { result ≡ right_value distance }
{
    let rest = rest(distance);
    ValueRecord {
        x_placement: rest,
        y_placement: 0,
        x_advance: rest,
        y_advance: 0,
    }
}

/// The values of two glyphs with a distance, those of the glyph that comes first in the text first: half of the distance,
/// rounded down, is the left glyph's, the rest the right glyph's.
pub fn kern_values(is_backward: bool, distance: i16) -> PairValues
    ensures { result ≡ kern_values is_backward distance }
{
    let left = left_value(distance);
    let right = right_value(distance);
    if is_backward {
        PairValues {
            first: right,
            second: Some(left),
        }
    } else {
        PairValues {
            first: left,
            second: Some(right),
        }
    }
}

/// The pair at an offset.
fn pair_row(is_backward: bool, table: &[u8], at: usize) -> PairRow
    requires { at + 6 ≤ length table.now }
    ensures { result ≡ pair_row is_backward table.now at }
{
    let left = word(table, at);
    let right = word(table, at + 2);
    let values = kern_values(is_backward, signed_word(table, at + 4));
    if is_backward {
        PairRow {
            first: right,
            second: left,
            values,
        }
    } else {
        PairRow {
            first: left,
            second: right,
            values,
        }
    }
}

/// Reads the pairs of format 0 in the order of the table, each with the glyph first that comes first in the text.
#[tactic(auto, using(font_bytes::proofs::Recorded::records_more, font_bytes::proofs::Recorded::records_end))]
pub fn read_pairs(
    alloc: Global,
    is_backward: bool,
    table: &[u8],
    at: usize,
    room: &mut Room,
) -> Result<Vec<PairRow>, TableFault>
    ensures ok { IfOk result (λ v.
        pairs_at is_backward room.old.left table.now at ≡ Ok (v.items, room.new.left)) }
    ensures refused { IfErr result (λ e. e ≢ TableFault.OutOfMemory
        → pairs_at is_backward room.old.left table.now at ≡ Err e) }
{
    need(table, at, 8)?;
    let count = usize::from(word(table, at));
    room.take(count)?;
    need(table, at + 8, 6 * count)?;
    let mut rows = Vec::with_capacity(alloc, count)?;
    for index in 0..count {
        rows.push(pair_row(is_backward, table, at + 8 + 6 * index))?;
    }
    Ok(rows)
}

/// The two glyphs of a pair as one number.
fn pair_number(row: &PairRow) -> u32
    ensures { result ≡ pair_number row.now }
{
    u32::from(row.first) * 65536 + u32::from(row.second)
}

/// Sorts pairs by their glyphs; those of the same glyphs keep their order.
fn sort_pairs(rows: &mut Vec<PairRow>) -> Result<(), AllocError>
    ensures { OnOk result (rows.new.items ≡ key_order pair_number rows.old.items) }
{
    rows.sort_by_key(|row| pair_number(row))?;
    Ok(())
}

/// Pairs in the order of their glyphs; of pairs of the same glyphs the first one counts.
pub fn rows_of_pairs(alloc: Global, pairs: Vec<PairRow>) -> Result<SortedRows<PairRow>, AllocError>
    ensures { IfOk result (λ rows. rows ≡ rows_of_pairs pairs.items) }
{
    let mut pairs = pairs;
    sort_pairs(&mut pairs)?;
    Ok(SortedRows::new(rising_only(alloc, pairs)?))
}

/// The glyphs that come first in pairs that are in order, each once.
#[tactic(auto, using(crate::proofs::Kept::kept_one, crate::proofs::Kept::left_out))]
pub fn firsts_of(alloc: Global, rows: &[PairRow]) -> Result<Vec<u16>, AllocError>
    ensures { IfOk result (λ v. v.items ≡ firsts_of rows.now) }
{
    let mut firsts = Vec::new(alloc);
    let mut before = None;
    for row in rows {
        if is_above(before, row.first) {
            firsts.push(row.first)?;
            before = Some(row.first);
        }
    }
    Ok(firsts)
}
