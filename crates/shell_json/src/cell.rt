//! The values in the cells of a row.

ghost use Rattle.std.specs.Prelude.{◌≡◌, Result};
ghost use Rattle.serde_json.specs.Data.{Data};
ghost use Rattle.serde_json.specs.View.{view, items_view};
ghost use Rattle.shell_json.specs.declared.fault.JsonFault.{JsonFault};
ghost use Rattle.shell_json.specs.Cell.{rank_of, first_fault, both, integer, u16_value, i16_value, character, pair_of, two_of};

use crate::fault::JsonFault;
use serde_json::Value;

/// The value of a cell: a number, or a list of such values.
pub trait Cell: Drop {
    ghost cell: { Data → Result Self JsonFault };

    fn read(value: &Value) -> Result<Self, JsonFault>
        ensures { result ≡ cell (view value.now) };
}

impl Cell for u16 {
    ghost cell = { u16_value };

    fn read(value: &Value) -> Result<u16, JsonFault> {
        match integer(value)? {
            n @ 0..=0xFFFF => Ok(n as u16),
            _ => Err(JsonFault::OutOfRange),
        }
    }
}

impl Cell for i16 {
    ghost cell = { i16_value };

    fn read(value: &Value) -> Result<i16, JsonFault> {
        match integer(value)? {
            n @ -0x8000..=0x7FFF => Ok(n as i16),
            _ => Err(JsonFault::OutOfRange),
        }
    }
}

impl Cell for char {
    ghost cell = { character };

    fn read(value: &Value) -> Result<char, JsonFault> {
        match integer(value)? {
            n @ 0..=0x10_FFFF => char::from_u32(n as u32).ok_or(JsonFault::OutOfRange),
            _ => Err(JsonFault::OutOfRange),
        }
    }
}

impl<A: Cell, B: Cell> Cell for (A, B) {
    ghost cell = { pair_of A.cell B.cell };

    fn read(value: &Value) -> Result<(A, B), JsonFault> {
        match value.as_array() {
            Some(values) => read_two(values),
            None => Err(JsonFault::WrongShape),
        }
    }
}

/// An integer of 64 bits, signed or not.
pub(crate) fn integer(value: &Value) -> Result<i128, JsonFault>
    ensures { result ≡ integer (view value.now) }
{
    match value.as_number() {
        Some(number) => number.as_i128().ok_or(JsonFault::FloatNumber),
        None => Err(JsonFault::WrongShape),
    }
}

#[tactic(auto, using(crate::proofs::Pairs::two_values, crate::proofs::Pairs::not_two))]
fn read_two<A: Cell, B: Cell>(values: &[Value]) -> Result<(A, B), JsonFault>
    ensures { result ≡ two_of A.cell B.cell (items_view values.now) }
{
    if values.len() != 2 {
        return Err(JsonFault::WrongShape);
    }
    pair(A::read(&values[0]), B::read(&values[1]))
}

fn rank(fault: JsonFault) -> u8
    ensures { result ≡ rank_of fault }
{
    match fault {
        JsonFault::OutOfMemory => 0,
        JsonFault::NotJson => 1,
        JsonFault::WrongShape => 2,
        JsonFault::FloatNumber => 3,
        JsonFault::UnknownName => 4,
        JsonFault::OutOfRange => 5,
        JsonFault::OutOfOrder => 6,
        JsonFault::SplitDepth => 7,
    }
}

/// A pair of results; of two faults the first by its kind.
pub fn pair<A: Drop, B: Drop>(
    first: Result<A, JsonFault>,
    second: Result<B, JsonFault>,
) -> Result<(A, B), JsonFault>
    ensures { result ≡ both first second }
{
    match (first, second) {
        (Ok(a), Ok(b)) => Ok((a, b)),
        (Ok(_), Err(fault)) | (Err(fault), Ok(_)) => Err(fault),
        (Err(one), Err(other)) => Err(first_fault(one, other)),
    }
}

/// Of two faults the first by its kind.
pub fn first_fault(one: JsonFault, other: JsonFault) -> JsonFault
    ensures { result ≡ first_fault one other }
{
    if rank(one) <= rank(other) { one } else { other }
}
