//! Reads lists of values, and lists of rows.
ghost use Rattle.std.specs.Prelude.{◌≡◌, ◌≢◌, IfOk, IfErr, Ok, Err};
ghost use Rattle.std.specs.Result.{result_map_both};
ghost use Rattle.serde_json.specs.View.{items_view};
ghost use Rattle.shell_face_json.specs.Lists.{after_all, items_of, value_list, rows_in_turn};

use crate::value::FromJson;
use layout_common::array::Array;
use serde_json::Value;
use shell_json::cell::first_fault;
use shell_json::fault::JsonFault;
use shell_json::items::list;
use std::alloc::Global;

/// A list inside a row.
impl<P: FromJson> FromJson for Array<P> {
    ghost font_value = { λ limit. value_list (P.font_value limit) };

    fn from_json(alloc: Global, value: &Value, limit: usize) -> Result<Array<P>, JsonFault> {
        let items = read_list(alloc, list(value)?, limit)?;
        Ok(Array::new(items))
    }
}

/// Reads the items of a list inside a row: of their faults the one that is first by its kind is returned.
pub(crate) fn read_list<P: FromJson>(
    alloc: Global,
    values: &[Value],
    limit: usize,
) -> Result<Vec<P>, JsonFault>
    ensures ok { IfOk result (λ v. items_of (P.font_value limit) (items_view values.now) ≡ Ok v.items) }
    ensures refused { IfErr result (λ e. e ≢ JsonFault.OutOfMemory
        → items_of (P.font_value limit) (items_view values.now) ≡ Err e) }
{
    let mut items = Ok(Vec::new(alloc));
    for value in values {
        items = with_item(items, P::from_json(alloc, value, limit));
    }
    items
}

fn with_item<P: Drop>(
    items: Result<Vec<P>, JsonFault>,
    item: Result<P, JsonFault>,
) -> Result<Vec<P>, JsonFault>
    ensures ok { IfOk result (λ v.
        after_all (result_map_both (λ w. w.items) (λ f. f) items) item ≡ Ok v.items) }
    ensures refused { IfErr result (λ e. e ≢ JsonFault.OutOfMemory
        → after_all (result_map_both (λ w. w.items) (λ f. f) items) item ≡ Err e) }
{
    match (items, item) {
        (Ok(mut items), Ok(item)) => {
            items.push(item)?;
            Ok(items)
        }
        (Ok(_), Err(fault)) | (Err(fault), Ok(_)) => Err(fault),
        (Err(one), Err(other)) => Err(first_fault(one, other)),
    }
}

/// Reads the rows of a list in turn; the fault of the first faulty row is returned.
pub fn read_in_turn<P: FromJson>(
    alloc: Global,
    values: &[Value],
    limit: usize,
) -> Result<Array<P>, JsonFault>
    ensures ok { IfOk result (λ v. rows_in_turn (P.font_value limit) (items_view values.now) ≡ Ok v) }
    ensures refused { IfErr result (λ e. e ≢ JsonFault.OutOfMemory
        → rows_in_turn (P.font_value limit) (items_view values.now) ≡ Err e) }
{
    let mut rows = Vec::new(alloc);
    for value in values {
        rows.push(P::from_json(alloc, value, limit)?)?;
    }
    Ok(Array::new(rows))
}
