//! Reads lists of rows whose keys rise, each row by a reader of its own.
ghost use Rattle.std.specs.Prelude.{◌≡◌, ◌≢◌, true, IfOk, IfErr, Ok, Err, Result};
ghost use Rattle.serde_json.specs.Data.{Data};
ghost use Rattle.serde_json.specs.View.{view};
ghost use Rattle.shell_json.specs.declared.fault.JsonFault.{JsonFault};
ghost use Rattle.shell_tables_json.specs.Rows.{rows_at};
ghost use Rattle.buffer_unicode.specs.Keys.{follows, is_rising};

use buffer_unicode::{DoublyKeyed, follows};
use serde_json::Value;
use shell_json::fault::JsonFault;
use shell_json::items::list_at;
use shell_json::rows::read_json_rows;
use std::alloc::Global;

/// The reader of a list's rows.
pub trait RowReader: Copy {
    type Row: DoublyKeyed;

    ghost means: { Self → Data → Result Self.Row JsonFault };

    fn read_row(self, value: &Value) -> Result<Self::Row, JsonFault>
        ensures { result ≡ means self (view value.now) };
}

/// Reads rows one by one, whose keys rise.
#[derive(Clone, Copy)]
struct Rising<T> {
    reader: T,
}

impl<T: RowReader> shell_json::rows::RowReader for Rising<T> {
    type Row = T::Row;

    type Key = T::Row;

    ghost means = { λ rising. T.means rising.reader };

    ghost key_of = { λ r. r };

    ghost may_follow = { follows T.Row.high T.Row.low };

    fn read_row(&self, _alloc: Global, value: &Value) -> Result<T::Row, JsonFault> {
        self.reader.read_row(value)
    }

    fn key(row: &T::Row) -> T::Row
        ensures { result ≡ row.now }
    {
        *row
    }

    fn follows(before: Option<T::Row>, key: T::Row) -> bool
        ensures { result ≡ follows T.Row.high T.Row.low before key }
    {
        follows(before, key)
    }
}

/// Reads the rows under a key, none where the key is missing.
#[tactic(auto, using(crate::proofs::Orders::rows_rise))]
pub fn read_rows_at<T: RowReader>(
    alloc: Global,
    value: &Value,
    key: &str,
    reader: T,
) -> Result<Vec<T::Row>, JsonFault>
    ensures ok { IfOk result (λ v.
        rows_at key.now T.Row.high T.Row.low (T.means reader) (view value.now) ≡ Ok v.items) }
    ensures refused { IfErr result (λ e. e ≢ JsonFault.OutOfMemory
        → rows_at key.now T.Row.high T.Row.low (T.means reader) (view value.now) ≡ Err e) }
    ensures rising { IfOk result (λ v. is_rising T.Row.high T.Row.low v.items ≡ true) }
{
    read_json_rows(alloc, list_at(value, key)?, &Rising { reader })
}
