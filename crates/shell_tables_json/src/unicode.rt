//! Reads the character tables.
ghost use Rattle.std.specs.Prelude.{◌≡◌, ◌≢◌, IfOk, IfErr, Ok, Err};
ghost use Rattle.serde_json.specs.View.{view};
ghost use Rattle.shell_tables_json.specs.Unicode.{tables_keys, tables_of};
ghost use Rattle.shell_tables_json.specs.Deep.{HasDeepSplits};
ghost use Rattle.buffer_unicode_tables.specs.Expansion.{EndWithin};
ghost use Rattle.buffer_unicode_tables.specs.Records.{AreRising, tables_of_records};
ghost use Rattle.buffer_unicode_tables.specs.Tables.{split_of};

use crate::characters::{
    Classes, Counterparts, IndicRows, JoiningRows, Pairs, Ranges, Splits, ThaiRows, UniversalRows,
};
use crate::rows::read_rows_at;
use buffer_unicode::TablesFault;
use buffer_unicode_tables::{UnicodeRecords, UnicodeTables};
use serde_json::Value;
use shell_json::fault::JsonFault;
use std::alloc::Global;

/// Reads the tables: the keys from `splits` to `thai` in their order. The first fault of a row is returned; where no
/// row has one, `SplitDepth` if a chain of first halves has more than eight decompositions. Unknown keys are skipped.
#[tactic(auto, using(crate::proofs::Shallow::rows_not_deep))]
pub fn read_tables(alloc: Global, value: &Value) -> Result<UnicodeTables, JsonFault>
    ensures ok { IfOk result (λ t. tables_of (view value.now) ≡ Ok t) }
    ensures shallow { IfOk result (λ t. EndWithin (split_of t) 8) }
    ensures refused { IfErr result (λ e. e ≢ JsonFault.OutOfMemory → e ≢ JsonFault.SplitDepth
        → tables_of (view value.now) ≡ Err e) }

    // Chains that are too long come after every fault of a row.
    ensures deep { result ≡ Err JsonFault.SplitDepth → HasDeepSplits (tables_of (view value.now)) }
{
    if !value.is_object() {
        return Err(JsonFault::WrongShape);
    }
    let records = read_records(alloc, value)?;
    match UnicodeTables::of_records(alloc, records) {
        Ok(tables) => Ok(tables),
        Err(TablesFault::SplitDepth) => Err(JsonFault::SplitDepth),
        Err(_) => Err(JsonFault::OutOfMemory),
    }
}

fn read_records(alloc: Global, value: &Value) -> Result<UnicodeRecords, JsonFault>
    ensures ok { IfOk result (λ r. tables_keys (view value.now) ≡ Ok (tables_of_records r)) }
    ensures rising { IfOk result AreRising }
    ensures refused { IfErr result (λ e. e ≢ JsonFault.OutOfMemory → tables_keys (view value.now) ≡ Err e) }
{
    Ok(UnicodeRecords {
        splits: read_rows_at(alloc, value, "splits", Splits)?,
        pairs: read_rows_at(alloc, value, "pairs", Pairs)?,
        classes: read_rows_at(alloc, value, "classes", Classes)?,
        mirrored: read_rows_at(alloc, value, "mirrored", Counterparts)?,
        vertical: read_rows_at(alloc, value, "vertical", Counterparts)?,
        pictographic: read_rows_at(alloc, value, "pictographic", Ranges)?,
        joining: read_rows_at(alloc, value, "joining", JoiningRows)?,
        indic: read_rows_at(alloc, value, "indic", IndicRows)?,
        universal: read_rows_at(alloc, value, "universal", UniversalRows)?,
        thai: read_rows_at(alloc, value, "thai", ThaiRows)?,
    })
}
