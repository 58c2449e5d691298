//! Reads objects, and the lists under an object's keys.
ghost use Rattle.std.specs.Prelude.{◌≡◌, ◌≢◌, IfOk, IfErr, Ok, Err, None};
ghost use Rattle.serde_json.specs.Find.{get};
ghost use Rattle.serde_json.specs.View.{view};
ghost use Rattle.shell_json.specs.Objects.{optional_value};
ghost use Rattle.shell_face_json.specs.Lists.{rows_at, rows_in_turn, items_of, count_at, is_object};
ghost use Rattle.shell_face_json.specs.Sorted.{rows_by_key};
ghost use Rattle.shell_face_json.specs.Glyphs.{glyph_limit, subtables_of};

use crate::glyphs::GLYPH_LIMIT;
use crate::lists::{read_in_turn, read_list};
use crate::rising::read_by_key;
use crate::value::FromJson;
use buffer_rows::{Keyed, SortedRows};
use layout_common::array::Array;
use layout_common::digested::Covers;
use layout_common::subtables::Subtables;
use serde_json::Value;
use shell_json::fault::JsonFault;
use shell_json::items::list_at;
use std::alloc::Global;

/// Refuses a value that is no object.
pub fn object(value: &Value) -> Result<(), JsonFault>
    ensures { result ≡ is_object (view value.now) }
{
    if value.is_object() {
        Ok(())
    } else {
        Err(JsonFault::WrongShape)
    }
}

/// Reads the rows under a key in turn.
pub fn read_in_turn_at<P: FromJson>(
    alloc: Global,
    value: &Value,
    key: &str,
    limit: usize,
) -> Result<Array<P>, JsonFault>
    ensures ok { IfOk result (λ v.
        rows_at key.now (rows_in_turn (P.font_value limit)) (view value.now) ≡ Ok v) }
    ensures refused { IfErr result (λ e. e ≢ JsonFault.OutOfMemory
        → rows_at key.now (rows_in_turn (P.font_value limit)) (view value.now) ≡ Err e) }
{
    read_in_turn(alloc, list_at(value, key)?, limit)
}

/// Reads the rows under a key in turn; their keys must rise strictly.
pub fn read_by_key_at<R: FromJson + Keyed>(
    alloc: Global,
    value: &Value,
    key: &str,
    limit: usize,
) -> Result<SortedRows<R>, JsonFault>
    ensures ok { IfOk result (λ v.
        rows_at key.now (rows_by_key R.Key.cmp R.key_of (R.font_value limit) None) (view value.now) ≡ Ok v) }
    ensures refused { IfErr result (λ e. e ≢ JsonFault.OutOfMemory
        → rows_at key.now (rows_by_key R.Key.cmp R.key_of (R.font_value limit) None) (view value.now) ≡ Err e) }
{
    read_by_key(alloc, list_at(value, key)?, limit)
}

/// Reads the list under a key as a list inside a row.
pub fn read_list_at<P: FromJson>(
    alloc: Global,
    value: &Value,
    key: &str,
    limit: usize,
) -> Result<Vec<P>, JsonFault>
    ensures ok { IfOk result (λ v.
        rows_at key.now (items_of (P.font_value limit)) (view value.now) ≡ Ok v.items) }
    ensures refused { IfErr result (λ e. e ≢ JsonFault.OutOfMemory
        → rows_at key.now (items_of (P.font_value limit)) (view value.now) ≡ Err e) }
{
    read_list(alloc, list_at(value, key)?, limit)
}

/// Reads the value under a key; `None` where the key is missing.
pub fn read_optional_at<P: FromJson>(
    alloc: Global,
    value: &Value,
    key: &str,
    limit: usize,
) -> Result<Option<P>, JsonFault>
    ensures ok { IfOk result (λ v.
        optional_value (P.font_value limit) (get key.now (view value.now)) ≡ Ok v) }
    ensures refused { IfErr result (λ e. e ≢ JsonFault.OutOfMemory
        → optional_value (P.font_value limit) (get key.now (view value.now)) ≡ Err e) }
{
    match value.get(key) {
        Some(value) => Ok(Some(P::from_json(alloc, value, limit)?)),
        None => Ok(None),
    }
}

/// The number of items of the list under a key, 0 where there is no list.
#[tactic(auto, using(crate::proofs::Split::count_is_length))]
pub fn count_at(value: &Value, key: &str) -> usize
    ensures { result ≡ count_at key.now (view value.now) }
{
    let Some(value) = value.get(key) else {
        return 0;
    };
    match value.as_array() {
        Some(values) => values.len(),
        None => 0,
    }
}

/// Reads the subtables of a lookup, whose glyph numbers have 16 bits.
pub fn subtables<S: FromJson + Covers>(
    alloc: Global,
    value: &Value,
) -> Result<Subtables<S>, JsonFault>
    ensures ok { IfOk result (λ v. subtables_of (S.font_value glyph_limit) (view value.now) ≡ Ok v) }
    ensures refused { IfErr result (λ e. e ≢ JsonFault.OutOfMemory
        → subtables_of (S.font_value glyph_limit) (view value.now) ≡ Err e) }
{
    let items = read_in_turn_at(alloc, value, "subtables", GLYPH_LIMIT)?;
    Ok(Subtables::new(alloc, items)?)
}
