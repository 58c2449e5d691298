//! Records in the strict order of their keys, made of records in any order.
ghost use Rattle.std.specs.Prelude.{◌≡◌, None, true, IfOk};
ghost use Rattle.buffer_rows.specs.Keys.{is_rising};
ghost use Rattle.font_common.specs.Rows.{first_rows};

use buffer_rows::{Keyed, is_above};
use std::alloc::{AllocError, Global};

/// The records whose keys are above that of the one kept before them: of records in the order of their keys the first
/// one of each key.
#[tactic(auto, using(crate::proofs::Kept::kept_one, crate::proofs::Kept::left_out, font_common::proofs::Firsts::first_rows_rise))]
pub fn rising_only<R: Keyed + Drop>(alloc: Global, rows: Vec<R>) -> Result<Vec<R>, AllocError>
    ensures only { IfOk result (λ v. v.items ≡ first_rows R.Key.cmp R.key_of None rows.items) }
    ensures rising { IfOk result (λ v. is_rising R.Key.cmp R.key_of None v.items ≡ true) }
{
    let mut kept = Vec::with_capacity(alloc, rows.len())?;
    let mut before = None;
    for row in rows {
        let key = row.key();
        if is_above(before, key) {
            kept.push(row)?;
            before = Some(key);
        }
    }
    Ok(kept)
}
