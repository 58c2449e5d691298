//! Rows of which each key has one.
ghost use Rattle.std.specs.Prelude.{◌≡◌, ◌++◌, IfOk, IfErr, None};
ghost use Rattle.font_bytes.specs.declared.fault.TableFault.{TableFault};
ghost use Rattle.font_common.specs.Rows.{first_rows, row_above, key_above};

use buffer_rows::{Keyed, SortedRows, is_above, is_rising};
use font_bytes::fault::TableFault;
use std::alloc::Global;

/// Appends a row whose key is above the one before it, and drops another one: of rows of one key the first stays. The
/// last key is known.
pub fn push_above<R: Keyed + Drop>(
    rows: &mut Vec<R>,
    before: Option<R::Key>,
    row: R,
) -> Result<Option<R::Key>, TableFault>
    ensures rows { IfOk result (λ _. rows.new.items ≡ rows.old.items ++ row_above R.Key.cmp R.key_of before row) }
    ensures key { IfOk result (λ k. k ≡ key_above R.Key.cmp before (R.key_of row)) }
    ensures refused { IfErr result (λ e. e ≡ TableFault.OutOfMemory) }
{
    let key = row.key();
    if !is_above(before, key) {
        return Ok(before);
    }
    rows.push(row)?;
    Ok(Some(key))
}

/// The rows whose keys are above all before them: of rows of one key, which stand together, the first.
#[tactic(auto, using(crate::proofs::Firsts::rising_first_rows, crate::proofs::Firsts::first_rows_rise))]
pub fn first_rows<R: Keyed + Copy + Drop>(
    alloc: Global,
    rows: Vec<R>,
) -> Result<SortedRows<R>, TableFault>
    ensures ok { IfOk result (λ v. v ≡ first_rows R.Key.cmp R.key_of None rows.items) }
    ensures refused { IfErr result (λ e. e ≡ TableFault.OutOfMemory) }
{
    if is_rising(&rows) {
        return Ok(SortedRows::new(rows));
    }
    Ok(SortedRows::new(without_doubles(alloc, &rows)?))
}

/// A copy of the rows whose keys are above all before them.
#[tactic(auto, using(crate::proofs::Firsts::first_step))]
fn without_doubles<R: Keyed + Copy + Drop>(alloc: Global, rows: &[R]) -> Result<Vec<R>, TableFault>
    ensures ok { IfOk result (λ v. v.items ≡ first_rows R.Key.cmp R.key_of None rows.now) }
    ensures refused { IfErr result (λ e. e ≡ TableFault.OutOfMemory) }
{
    let mut firsts = Vec::with_capacity(alloc, rows.len())?;
    let mut before = None;
    for row in rows {
        before = push_above(&mut firsts, before, *row)?;
    }
    Ok(firsts)
}
