//! Parsing rows, with the first fault of a row that has one.
ghost use Rattle.std.specs.Prelude.{◌≡◌, ◌≢◌, true, IfOk, IfErr, OnOk, None, Some, map};
ghost use Rattle.buffer_unicode.specs.Keys.{follows, is_rising, precedes, row_fault};

use crate::fault::TablesFault;
use crate::keyed::{DoublyKeyed, Row};
use crate::search::is_below;
use std::alloc::Global;

/// The records of rows of numbers, whose keys must rise strictly.
#[tactic(auto, using(crate::proofs::Faults::rises_without_fault))]
pub fn read_rows<const N: usize, R: Row<N>>(
    alloc: Global,
    rows: &[[u32; N]],
) -> Result<Vec<R>, TablesFault>
    ensures read { IfOk result (λ v. v.items ≡ map R.of_numbers rows.now) }
    ensures sound { OnOk result (row_fault R.is_in_range R.high R.low None (map R.of_numbers rows.now) ≡ None) }
    ensures rising { IfOk result (λ v. is_rising R.high R.low v.items ≡ true) }
    ensures refused { IfErr result
        (λ e. e ≢ TablesFault.OutOfMemory →
        row_fault R.is_in_range R.high R.low None (map R.of_numbers rows.now) ≡ Some e) }
    ensures row_by_row { result ≢ Err TablesFault.SplitDepth }
{
    let mut records = Vec::new(alloc);
    let mut before = None;
    for numbers in rows {
        let Some(row) = R::read(numbers) else {
            return Err(TablesFault::OutOfRange);
        };
        if !follows(before, row) {
            return Err(TablesFault::OutOfOrder);
        }
        records.push(row)?;
        before = Some(row);
    }
    Ok(records)
}

/// Whether a row is the first, or its key is greater than that of the row before.
pub fn follows<R: DoublyKeyed>(before: Option<R>, row: R) -> bool
    ensures { result ≡ follows R.high R.low before row }
{
    match before {
        None => true,
        Some(before) => precedes(before, row),
    }
}

fn precedes<R: DoublyKeyed>(a: R, b: R) -> bool
    ensures { result ≡ precedes R.high R.low a b }
{
    is_below(a.high(), a.low(), b.high(), b.low())
}
