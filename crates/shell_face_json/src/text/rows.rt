//! Reads the values and rows of a font, each one by itself.
//!
//! The taker of a table (`table`) has the same form: it keeps a limit and the type that it reads.
ghost use Rattle.std.specs.Prelude.{◌≡◌, ◌<◌, length, None, Some, IfOk, OnOk, Ok};
ghost use Rattle.json.specs.Json.{value, items};
ghost use Rattle.serde_json.specs.Data.{Data, Items};
ghost use Rattle.serde_json.specs.Read.{of_items, converted};
ghost use Rattle.shell_json.specs.TextValues.{BeginsWith};
ghost use Rattle.shell_json.specs.Cell.{and_then};
ghost use Rattle.shell_json.specs.Items.{list_of};
ghost use Rattle.shell_face_json.specs.Lists.{rows_in_turn};
ghost use Rattle.shell_face_json.specs.Sorted.{rows_by_key};

use crate::value::FromJson;
use buffer_rows::{Keyed, SortedRows, is_rising};
use json::{Reader, Token};
use layout_common::array::Array;
use shell_json::key_takers::ValueTaker;
use shell_json::unread::Unread;
use shell_json::value::read_value;
use std::alloc::Global;
use std::marker::PhantomData;

/// Reads the items of a list in turn, in which each index is below a limit.
#[derive(Drop)]
pub struct ListTaker<P> {
    limit: usize,
    items: PhantomData<P>,
}

impl<P: FromJson> ListTaker<P> {
    /// A reader of items whose indices are below `limit`.
    pub fn new(limit: usize) -> ListTaker<P>
        ensures { result.limit ≡ limit }
    {
        ListTaker {
            limit,
            items: PhantomData,
        }
    }
}

impl<P: FromJson> ValueTaker for ListTaker<P> {
    type Output = Array<P>;

    ghost means = { λ taker d items. and_then (list_of d) (rows_in_turn (P.font_value taker.limit)) ≡ Ok items };

    fn take_value(
        &self,
        alloc: Global,
        reader: &mut Reader<'_>,
        depth: usize,
    ) -> Result<Array<P>, Unread> {
        Ok(Array::new(take_list(alloc, reader, depth, self.limit)?))
    }
}

/// Reads a list of rows whose keys rise strictly, in which each index is below a limit.
#[derive(Drop)]
pub struct RowTaker<R> {
    limit: usize,
    rows: PhantomData<R>,
}

impl<R: FromJson + Keyed> RowTaker<R> {
    /// A reader of rows whose indices are below `limit`.
    pub fn new(limit: usize) -> RowTaker<R>
        ensures { result.limit ≡ limit }
    {
        RowTaker {
            limit,
            rows: PhantomData,
        }
    }
}

impl<R: FromJson + Keyed> ValueTaker for RowTaker<R> {
    type Output = SortedRows<R>;

    ghost means = { λ taker d rows.
        and_then (list_of d) (rows_by_key R.Key.cmp R.key_of (R.font_value taker.limit) None) ≡ Ok rows };

    fn take_value(
        &self,
        alloc: Global,
        reader: &mut Reader<'_>,
        depth: usize,
    ) -> Result<SortedRows<R>, Unread> {
        let rows = take_list(alloc, reader, depth, self.limit)?;
        if !is_rising(&rows) {
            return Err(Unread);
        }
        Ok(SortedRows::new(rows))
    }
}

fn take_list<P: FromJson>(
    alloc: Global,
    reader: &mut Reader<'_>,
    depth: usize,
    limit: usize,
) -> Result<Vec<P>, Unread>
    ensures ok { IfOk result (λ v. (d : Data) × BeginsWith depth reader.old d reader.new
        × (and_then (list_of d) (rows_in_turn (P.font_value limit)) ≡ Ok v.items)) }
    ensures shorter { OnOk result (length reader.new < length reader.old) }
{
    let token = reader.next().ok_or(Unread)?;
    match token {
        Token::BeginArray => {
            if depth == 0 {
                return Err(Unread);
            }
            take_items(alloc, reader, depth - 1, limit)
        }
        _ => Err(Unread),
    }
}

fn take_items<P: FromJson>(
    alloc: Global,
    reader: &mut Reader<'_>,
    depth: usize,
    limit: usize,
) -> Result<Vec<P>, Unread>
    ensures ok { IfOk result (λ v. (ds : Items)
        × (converted of_items (items (value depth) (length reader.old) reader.old) ≡ Some (ds, reader.new))
        × (rows_in_turn (P.font_value limit) ds ≡ Ok v.items)) }
    ensures shorter { OnOk result (length reader.new < length reader.old) }
{
    let mut items = Vec::new(alloc);
    'items: while !reader.take_end_array() {
        let item = take_item(alloc, reader, depth, limit)?;
        items.push(item)?;
    }
    Ok(items)
}

fn take_item<P: FromJson>(
    alloc: Global,
    reader: &mut Reader<'_>,
    depth: usize,
    limit: usize,
) -> Result<P, Unread>
    ensures ok { IfOk result (λ p. (d : Data) × BeginsWith depth reader.old d reader.new × (P.font_value limit d ≡ Ok p)) }
    ensures shorter { OnOk result (length reader.new < length reader.old) }
{
    let value = read_value(alloc, reader, depth)?;
    match P::from_json(alloc, &value, limit) {
        Ok(item) => Ok(item),
        Err(_) => Err(Unread),
    }
}
