//! Value records (OpenType, GPOS, shared tables: value record).
ghost use Rattle.std.specs.Prelude.{◌≡◌, ◌≤◌, ◌<◌, ◌+◌, length};
ghost use Rattle.font_positioning.specs.Values.{has_field, field_size, field_at, one_size, two_size, three_size, four_size, value_size, value_at};

use font_bytes::words::signed_word;
use layout_tables::value::ValueRecord;

/// The bits of a value format for the four values of a record, and those after them: for offsets of devices, and without
/// a meaning so far.
const X_PLACEMENT: u16 = 0x0001;

const Y_PLACEMENT: u16 = 0x0002;

const X_ADVANCE: u16 = 0x0004;

const Y_ADVANCE: u16 = 0x0008;

const OTHERS: u16 = 0xfff0;

/// Whether records of a value format have a field.
fn has_field(format: u16, bit: u16) -> bool
    ensures { result ≡ has_field format bit }
{
    format & bit != 0
}

/// How many bytes the field of a bit takes.
fn field_size(format: u16, bit: u16) -> usize
    ensures value { result ≡ field_size format bit }
    ensures least { result ≤ 2 }
{
    if has_field(format, bit) { 2 } else { 0 }
}

/// The field of a bit at an offset, 0 where records of the format have none.
fn field_at(format: u16, bit: u16, table: &[u8], at: usize) -> i16
    requires { at + field_size format bit ≤ length table.now }
    ensures { result ≡ field_at format bit table.now at }
{
    if has_field(format, bit) {
        signed_word(table, at)
    } else {
        0
    }
}

/// How many bytes records of a format have.
pub(crate) fn value_size(format: u16) -> usize
    ensures value { result ≡ value_size format }
    ensures few { result ≤ 40 }
{
    let placement = field_size(format, X_PLACEMENT) + field_size(format, Y_PLACEMENT);
    let advance = field_size(format, X_ADVANCE) + field_size(format, Y_ADVANCE);
    placement + advance + 2 * (format & OTHERS).count_ones() as usize
}

/// The value record at an offset.
#[tactic(auto, unfolding(crate::specs::Values::value_at))]
pub(crate) fn value_at(format: u16, table: &[u8], at: usize) -> ValueRecord
    requires { at + value_size format ≤ length table.now }
    ensures { result ≡ value_at format table.now at }
{
    let second = at + field_size(format, X_PLACEMENT);
    let third = second + field_size(format, Y_PLACEMENT);
    let fourth = third + field_size(format, X_ADVANCE);
    ValueRecord {
        x_placement: field_at(format, X_PLACEMENT, table, at),
        y_placement: field_at(format, Y_PLACEMENT, table, second),
        x_advance: field_at(format, X_ADVANCE, table, third),
        y_advance: field_at(format, Y_ADVANCE, table, fourth),
    }
}
