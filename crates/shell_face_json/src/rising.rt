//! Checks that the keys of rows rise strictly.
ghost use Rattle.std.specs.Prelude.{◌≡◌, ◌≢◌, IfOk, IfErr, Ok, Err, None, true};
ghost use Rattle.serde_json.specs.View.{items_view};
ghost use Rattle.buffer_rows.specs.Keys.{is_above, is_rising};
ghost use Rattle.shell_face_json.specs.Sorted.{rows_by_key, sorted_value};

use crate::lists::read_list;
use crate::value::FromJson;
use buffer_rows::{Keyed, SortedRows, is_above, is_rising};
use serde_json::Value;
use shell_json::fault::JsonFault;
use shell_json::items::list;
use shell_json::rows::{RowReader, read_json_rows};
use std::alloc::Global;
use std::marker::PhantomData;

/// A list of rows inside a row, whose keys rise strictly.
impl<R: FromJson + Keyed> FromJson for SortedRows<R> {
    ghost font_value = { λ limit. sorted_value R.Key.cmp R.key_of (R.font_value limit) };

    fn from_json(alloc: Global, value: &Value, limit: usize) -> Result<SortedRows<R>, JsonFault> {
        let rows = read_list(alloc, list(value)?, limit)?;
        if !is_rising(&rows) {
            return Err(JsonFault::OutOfOrder);
        }
        Ok(SortedRows::new(rows))
    }
}

/// Reads the rows of a list in turn; each key has to be above the one before. The fault is that of the first row that
/// has one: a fault of the row itself, else that its key is out of order.
pub fn read_by_key<R: FromJson + Keyed>(
    alloc: Global,
    values: &[Value],
    limit: usize,
) -> Result<SortedRows<R>, JsonFault>
    ensures ok { IfOk result (λ v.
        rows_by_key R.Key.cmp R.key_of (R.font_value limit) None (items_view values.now) ≡ Ok v) }
    ensures refused { IfErr result (λ e. e ≢ JsonFault.OutOfMemory
        → rows_by_key R.Key.cmp R.key_of (R.font_value limit) None (items_view values.now) ≡ Err e) }
{
    Ok(SortedRows::new(read_rising(alloc, values, limit)?))
}

/// Reads rows in which each index is below a limit.
#[derive(Drop)]
struct ByKey<R> {
    limit: usize,
    rows: PhantomData<R>,
}

impl<R: FromJson + Keyed> RowReader for ByKey<R> {
    type Row = R;

    type Key = R::Key;

    ghost means = { λ reader. R.font_value reader.limit };

    ghost key_of = { R.key_of };

    ghost may_follow = { is_above R.Key.cmp };

    fn read_row(&self, alloc: Global, value: &Value) -> Result<R, JsonFault> {
        R::from_json(alloc, value, self.limit)
    }

    fn key(row: &R) -> R::Key
        ensures { result ≡ R.key_of row.now }
    {
        row.key()
    }

    fn follows(before: Option<R::Key>, key: R::Key) -> bool
        ensures { result ≡ is_above R.Key.cmp before key }
    {
        is_above(before, key)
    }
}

/// Reads the rows of a list with rising keys into a vector.
#[tactic(auto, using(crate::proofs::RisingKeys::keys_rise), unfolding(crate::specs::Sorted::rows_by_key))]
pub fn read_rising<R: FromJson + Keyed>(
    alloc: Global,
    values: &[Value],
    limit: usize,
) -> Result<Vec<R>, JsonFault>
    ensures ok { IfOk result (λ v.
        rows_by_key R.Key.cmp R.key_of (R.font_value limit) None (items_view values.now) ≡ Ok v.items) }
    ensures refused { IfErr result (λ e. e ≢ JsonFault.OutOfMemory
        → rows_by_key R.Key.cmp R.key_of (R.font_value limit) None (items_view values.now) ≡ Err e) }
    ensures rising { IfOk result (λ v. is_rising R.Key.cmp R.key_of None v.items ≡ true) }
{
    let reader = ByKey::<R> {
        limit,
        rows: PhantomData,
    };
    read_json_rows(alloc, values, &reader)
}
