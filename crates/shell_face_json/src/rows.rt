//! Reads rows: lists whose items differ in kind.
ghost use Rattle.std.specs.Prelude.{◌≡◌, ◌≢◌, ℕ, IfOk, IfErr, Ok, Err, Result};
ghost use Rattle.serde_json.specs.Data.{Items};
ghost use Rattle.serde_json.specs.View.{view, items_view};
ghost use Rattle.shell_json.specs.declared.fault.JsonFault.{JsonFault};
ghost use Rattle.shell_json.specs.Cell.{and_then, i16_value};
ghost use Rattle.shell_json.specs.Items.{list_of};
ghost use Rattle.shell_face_json.specs.Lists.{number_below};
ghost use Rattle.shell_face_json.specs.Row.{no_more, only, first_and_rest, first_in, row_of};

use crate::value::FromJson;
use serde_json::Value;
use shell_json::cell::pair;
use shell_json::fault::JsonFault;
use shell_json::items::list;
use std::alloc::Global;

/// The items of a row from one of them on.
pub trait FromItems: Drop {
    ghost row_items: { ℕ → Items → Result Self JsonFault };

    /// Reads the remaining items of a row. Of several faults it returns the one that is first by its kind.
    fn from_items(alloc: Global, values: &[Value], limit: usize) -> Result<Self, JsonFault>
        ensures ok { IfOk result (λ p. row_items limit (items_view values.now) ≡ Ok p) }
        ensures refused { IfErr result (λ e. e ≢ JsonFault.OutOfMemory
            → row_items limit (items_view values.now) ≡ Err e) };
}

impl FromItems for () {
    ghost row_items = { λ _. no_more };

    #[tactic(auto, using(crate::proofs::Split::none_left, crate::proofs::Split::some_left))]
    fn from_items(_alloc: Global, values: &[Value], _limit: usize) -> Result<(), JsonFault> {
        if values.is_empty() {
            Ok(())
        } else {
            Err(JsonFault::WrongShape)
        }
    }
}

impl<A: FromJson, R: FromItems> FromItems for (A, R) {
    ghost row_items = { λ limit. first_and_rest (A.font_value limit) (R.row_items limit) };

    fn from_items(alloc: Global, values: &[Value], limit: usize) -> Result<(A, R), JsonFault> {
        let (first, rest) = split_first(values)?;
        let first = A::from_json(alloc, first, limit);
        pair(first, R::from_items(alloc, rest, limit))
    }
}

/// A row of one number.
impl FromItems for u16 {
    ghost row_items = { λ limit. only (number_below limit) };

    fn from_items(alloc: Global, values: &[Value], limit: usize) -> Result<u16, JsonFault> {
        read_only(alloc, values, limit)
    }
}

/// A row of one signed number.
impl FromItems for i16 {
    ghost row_items = { λ _. only i16_value };

    fn from_items(alloc: Global, values: &[Value], limit: usize) -> Result<i16, JsonFault> {
        read_only(alloc, values, limit)
    }
}

/// Reads a row of exactly one item.
pub fn read_only<P: FromJson>(alloc: Global, values: &[Value], limit: usize) -> Result<P, JsonFault>
    ensures ok { IfOk result (λ p. only (P.font_value limit) (items_view values.now) ≡ Ok p) }
    ensures refused { IfErr result (λ e. e ≢ JsonFault.OutOfMemory
        → only (P.font_value limit) (items_view values.now) ≡ Err e) }
{
    let (item, ()) = FromItems::from_items(alloc, values, limit)?;
    Ok(item)
}

/// Reads a row of the given items.
pub fn read_row<R: FromItems>(alloc: Global, value: &Value, limit: usize) -> Result<R, JsonFault>
    ensures ok { IfOk result (λ p. row_of (R.row_items limit) (view value.now) ≡ Ok p) }
    ensures refused { IfErr result (λ e. e ≢ JsonFault.OutOfMemory
        → row_of (R.row_items limit) (view value.now) ≡ Err e) }
{
    R::from_items(alloc, list(value)?, limit)
}

/// The first item of a row, and the items after it.
pub fn split_row(value: &Value) -> Result<(&Value, &[Value]), JsonFault>
    ensures ok { IfOk result (λ p. and_then (list_of (view value.entry.now)) first_in
        ≡ Ok (view p.0.now, items_view p.1.now)) }
    ensures refused { IfErr result (λ e. and_then (list_of (view value.entry.now)) first_in ≡ Err e) }
{
    split_first(list(value)?)
}

#[tactic(auto, using(crate::proofs::Split::first_of_some, crate::proofs::Split::first_of_none))]
fn split_first(values: &[Value]) -> Result<(&Value, &[Value]), JsonFault>
    ensures ok { IfOk result (λ p. first_in (items_view values.entry.now)
        ≡ Ok (view p.0.now, items_view p.1.now)) }
    ensures refused { IfErr result (λ e. first_in (items_view values.entry.now) ≡ Err e) }
{
    if values.is_empty() {
        return Err(JsonFault::WrongShape);
    }
    Ok((&values[0], &values[1..]))
}
