//! Reads numbers, texts and lists from JSON values.

ghost use Rattle.std.specs.Prelude.{◌≡◌, ◌≤◌, ◌^◌, IfOk, IfErr, Ok, Err};
ghost use Rattle.std.specs.List.{list_all};
ghost use Rattle.serde_json.specs.View.{view, items_view};
ghost use Rattle.shell_json.specs.Cell.{and_then, integer};
ghost use Rattle.shell_json.specs.Items.{list_of, list_at, two_in, three_in, four_in, text, tag, tag_in_text, is_tag_text, is_printable, natural_number_below};

use crate::cell::{Cell, integer};
use crate::fault::JsonFault;
use buffer_common::tag::Tag;
use serde_json::Value;

/// The items of a list.
///
/// # Errors
///
/// `WrongShape` for any other value.
pub fn list(value: &Value) -> Result<&[Value], JsonFault>
    ensures ok { IfOk result (λ vs. list_of (view value.entry.now) ≡ Ok (items_view vs.now)) }
    ensures refused { IfErr result (λ e. list_of (view value.entry.now) ≡ Err e) }
{
    match value.as_array() {
        Some(values) => Ok(values),
        None => Err(JsonFault::WrongShape),
    }
}

/// The items of the list under a key, none where the key is missing.
pub fn list_at<'a>(value: &'a Value, key: &str) -> Result<&'a [Value], JsonFault>
    ensures ok { IfOk result (λ vs. list_at key.now (view value.entry.now) ≡ Ok (items_view vs.now)) }
    ensures refused { IfErr result (λ e. list_at key.now (view value.entry.now) ≡ Err e) }
{
    match value.get(key) {
        Some(value) => list(value),
        None => Ok(&[]),
    }
}

/// The items of a row of exactly two.
#[tactic(auto, using(crate::proofs::ByLength::two_items, crate::proofs::ByLength::not_two_items))]
pub fn two_items(value: &Value) -> Result<(&Value, &Value), JsonFault>
    ensures ok { IfOk result (λ p. and_then (list_of (view value.entry.now)) two_in
        ≡ Ok (view p.0.now, view p.1.now)) }
    ensures refused { IfErr result (λ e. and_then (list_of (view value.entry.now)) two_in ≡ Err e) }
{
    let values = list(value)?;
    if values.len() != 2 {
        return Err(JsonFault::WrongShape);
    }
    Ok((&values[0], &values[1]))
}

/// The items of a row of exactly three.
#[tactic(auto, using(crate::proofs::ByLength::three_items, crate::proofs::ByLength::not_three_items))]
pub fn three_items(value: &Value) -> Result<(&Value, &Value, &Value), JsonFault>
    ensures ok { IfOk result (λ p. and_then (list_of (view value.entry.now)) three_in
        ≡ Ok (view p.0.now, view p.1.now, view p.2.now)) }
    ensures refused { IfErr result (λ e. and_then (list_of (view value.entry.now)) three_in ≡ Err e) }
{
    let values = list(value)?;
    if values.len() != 3 {
        return Err(JsonFault::WrongShape);
    }
    Ok((&values[0], &values[1], &values[2]))
}

/// The items of a row of exactly four.
#[tactic(auto, using(crate::proofs::ByLength::four_items, crate::proofs::ByLength::not_four_items))]
pub fn four_items(value: &Value) -> Result<(&Value, &Value, &Value, &Value), JsonFault>
    ensures ok { IfOk result (λ p. and_then (list_of (view value.entry.now)) four_in
        ≡ Ok (view p.0.now, view p.1.now, view p.2.now, view p.3.now)) }
    ensures refused { IfErr result (λ e. and_then (list_of (view value.entry.now)) four_in ≡ Err e) }
{
    let values = list(value)?;
    if values.len() != 4 {
        return Err(JsonFault::WrongShape);
    }
    Ok((&values[0], &values[1], &values[2], &values[3]))
}

/// The text of a value.
///
/// # Errors
///
/// `WrongShape` for any other value.
pub fn text(value: &Value) -> Result<&str, JsonFault>
    ensures ok { IfOk result (λ s. text (view value.entry.now) ≡ Ok s.now) }
    ensures refused { IfErr result (λ e. text (view value.entry.now) ≡ Err e) }
{
    match value.as_str() {
        Some(text) => Ok(text),
        None => Err(JsonFault::WrongShape),
    }
}

/// An integer from 0 on and below a limit.
pub fn natural_number_below(value: &Value, limit: u32) -> Result<u32, JsonFault>
    ensures { result ≡ natural_number_below limit (view value.now) }
{
    match integer(value)? {
        n @ 0..=0xFFFF_FFFF if n < i128::from(limit) => Ok(n as u32),
        _ => Err(JsonFault::OutOfRange),
    }
}

impl Cell for u8 {
    ghost cell = { natural_number_below 256 };

    fn read(value: &Value) -> Result<u8, JsonFault> {
        match integer(value)? {
            n @ 0..=0xFF => Ok(n as u8),
            _ => Err(JsonFault::OutOfRange),
        }
    }
}

impl Cell for u32 {
    ghost cell = { natural_number_below 0x1_0000_0000 };

    fn read(value: &Value) -> Result<u32, JsonFault> {
        match integer(value)? {
            n @ 0..=0xFFFF_FFFF => Ok(n as u32),
            _ => Err(JsonFault::OutOfRange),
        }
    }
}

impl Cell for Tag {
    ghost cell = { tag };

    fn read(value: &Value) -> Result<Tag, JsonFault> {
        match value.as_str() {
            Some(text) => tag_in(text.as_bytes()),
            None => Err(JsonFault::WrongShape),
        }
    }
}

fn tag_in(text: &[u8]) -> Result<Tag, JsonFault>
    ensures { result ≡ tag_in_text text.now }
{
    if is_tag_text(text) {
        Ok(Tag::from_bytes_lossy(text))
    } else {
        Err(JsonFault::WrongShape)
    }
}

fn is_tag_text(text: &[u8]) -> bool
    ensures { result ≡ is_tag_text text.now }
{
    1 <= text.len() && text.len() <= 4 && are_printable(text)
}

fn are_printable(text: &[u8]) -> bool
    ensures { result ≡ list_all is_printable text.now }
{
    text.iter().all(|byte| 0x20 <= *byte && *byte <= 0x7E)
}
