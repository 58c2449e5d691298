//! Reads the rows of a list, each of which must be in order with the one before it.
ghost use Rattle.std.specs.Prelude.{◌≡◌, ◌≢◌, Bool, IfOk, IfErr, Ok, Err, None, Option, Result, true};
ghost use Rattle.serde_json.specs.Data.{Data};
ghost use Rattle.serde_json.specs.View.{view, items_view};
ghost use Rattle.shell_json.specs.declared.fault.JsonFault.{JsonFault};
ghost use Rattle.shell_json.specs.Rows.{rows_after, row_after, all_follow};

use crate::fault::JsonFault;
use serde_json::Value;
use std::alloc::Global;

/// The reader of a list's rows, with their order.
pub trait RowReader {
    type Row: Drop;

    type Key: Copy + Drop;

    ghost means: { Self → Data → Result Self.Row JsonFault };

    ghost key_of: { Self.Row → Self.Key };

    ghost may_follow: { Option Self.Key → Self.Key → Bool };

    /// Reads one row. Of several faults it returns the one that is first by its kind.
    fn read_row(&self, alloc: Global, value: &Value) -> Result<Self::Row, JsonFault>
        ensures ok { IfOk result (λ r. means self.now (view value.now) ≡ Ok r) }
        ensures refused { IfErr result (λ e. e ≢ JsonFault.OutOfMemory
            → means self.now (view value.now) ≡ Err e) };

    /// The key by which rows are ordered.
    fn key(row: &Self::Row) -> Self::Key
        ensures { result ≡ key_of row.now };

    /// Whether a row with a key may follow one with the key before, or be the first where there is none.
    fn follows(before: Option<Self::Key>, key: Self::Key) -> bool
        ensures { result ≡ may_follow before key };
}

/// Reads the rows of a list; the fault of the first faulty row is returned, and of that row's faults the order is the
/// last.
pub fn read_json_rows<T: RowReader>(
    alloc: Global,
    values: &[Value],
    reader: &T,
) -> Result<Vec<T::Row>, JsonFault>
    ensures ok { IfOk result (λ v.
        rows_after T.may_follow T.key_of (T.means reader.now) None (items_view values.now) ≡ Ok v.items) }
    ensures refused { IfErr result (λ e. e ≢ JsonFault.OutOfMemory
        → rows_after T.may_follow T.key_of (T.means reader.now) None (items_view values.now) ≡ Err e) }
    ensures follow { IfOk result (λ v. all_follow T.may_follow T.key_of None v.items ≡ true) }
{
    let mut rows: Vec<T::Row> = Vec::new(alloc);
    let mut before: Option<T::Key> = None;
    for value in values {
        let row = read_row_after(alloc, before, value, reader)?;
        before = Some(T::key(&row));
        rows.push(row)?;
    }
    Ok(rows)
}

fn read_row_after<T: RowReader>(
    alloc: Global,
    before: Option<T::Key>,
    value: &Value,
    reader: &T,
) -> Result<T::Row, JsonFault>
    ensures ok { IfOk result (λ r.
        row_after T.may_follow T.key_of (T.means reader.now) before (view value.now) ≡ Ok r) }
    ensures refused { IfErr result (λ e. e ≢ JsonFault.OutOfMemory
        → row_after T.may_follow T.key_of (T.means reader.now) before (view value.now) ≡ Err e) }
{
    let row = reader.read_row(alloc, value)?;
    if !T::follows(before, T::key(&row)) {
        return Err(JsonFault::OutOfOrder);
    }
    Ok(row)
}
