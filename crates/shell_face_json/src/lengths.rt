//! The lengths of lists against which glyph classes are checked.
ghost use Rattle.std.specs.Prelude.{◌≡◌, min};
ghost use Rattle.serde_json.specs.Find.{at};
ghost use Rattle.serde_json.specs.View.{view, items_view};
ghost use Rattle.shell_face_json.specs.Lengths.{items_at, length_or, least_length, row_length_or, least_row_length, row_least_length, least_length_in_rows};

use serde_json::Value;

/// The items of the list under a key; none where there is no list.
pub(crate) fn items_at<'a>(value: &'a Value, key: &str) -> &'a [Value]
    ensures { items_view result.now ≡ items_at key.now (view value.entry.now) }
{
    let Some(value) = value.get(key) else {
        return &[];
    };
    match value.as_array() {
        Some(values) => values,
        None => &[],
    }
}

/// The least length of the lists among some values, at most the limit.
pub(crate) fn least_length(limit: usize, values: &[Value]) -> usize
    ensures { result ≡ least_length limit (items_view values.now) }
{
    let mut least = limit;
    for value in values {
        least = lesser(least, length_or(least, value));
    }
    least
}

/// The least length of the lists that are second items of rows, at most the limit.
pub(crate) fn least_row_length(limit: usize, rows: &[Value]) -> usize
    ensures { result ≡ least_row_length limit (items_view rows.now) }
{
    let mut least = limit;
    for row in rows {
        least = lesser(least, row_length_or(least, row));
    }
    least
}

/// The least length of the lists within the second items of rows, at most the limit.
pub(crate) fn least_length_in_rows(limit: usize, rows: &[Value]) -> usize
    ensures { result ≡ least_length_in_rows limit (items_view rows.now) }
{
    let mut least = limit;
    for row in rows {
        least = row_least_length(least, row);
    }
    least
}

#[tactic(auto, using(crate::proofs::Split::count_is_length))]
fn length_or(limit: usize, value: &Value) -> usize
    ensures { result ≡ length_or limit (view value.now) }
{
    match value.as_array() {
        Some(values) => values.len(),
        None => limit,
    }
}

fn row_length_or(limit: usize, row: &Value) -> usize
    ensures { result ≡ row_length_or limit (at 1 (view row.now)) }
{
    match row.get(1usize) {
        Some(value) => length_or(limit, value),
        None => limit,
    }
}

fn row_least_length(limit: usize, row: &Value) -> usize
    ensures { result ≡ row_least_length limit (at 1 (view row.now)) }
{
    let Some(value) = row.get(1usize) else {
        return limit;
    };
    match value.as_array() {
        Some(values) => least_length(limit, values),
        None => limit,
    }
}

fn lesser(a: usize, b: usize) -> usize
    ensures { result ≡ min a b }
{
    if a < b { a } else { b }
}
