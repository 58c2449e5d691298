//! The texts of rows.

use crate::fault::RowFault;
use std::alloc::Global;

/// The text of a field: ASCII, or characters with their numbers.
pub(crate) fn text_of(alloc: Global, field: &str) -> Result<Vec<u8>, RowFault> {
    let Some((shown, numbers)) = field.split_once("U+") else {
        return Ok(Vec::from_slice(alloc, field.as_bytes())?);
    };
    let text = numbered(alloc, numbers)?;
    if !shown.is_empty() && shown.trim().as_bytes() != text.as_slice() {
        return Err(RowFault::Row("characters that are not those of the numbers"));
    }
    Ok(text)
}

/// The text of the characters and bytes of hexadecimal numbers.
fn numbered(alloc: Global, numbers: &str) -> Result<Vec<u8>, RowFault> {
    let mut text = Vec::new(alloc);
    for number in numbers.split_whitespace() {
        push_number(&mut text, number)?;
    }
    Ok(text)
}

fn push_number(text: &mut Vec<u8>, number: &str) -> Result<(), RowFault> {
    if let Some(number) = number.strip_prefix('x') {
        match u8::from_str_radix(number, 16) {
            Ok(byte) => text.push(byte)?,
            Err(_) => return Err(RowFault::Row("no byte")),
        }
        return Ok(());
    }
    match character(number) {
        Some(c) => text.extend_from_slice(c.encode_utf8(&mut [0; 4]).as_bytes())?,
        None => return Err(RowFault::Row("no character")),
    }
    Ok(())
}

/// The character that a hexadecimal number names.
fn character(number: &str) -> Option<char> {
    char::from_u32(u32::from_str_radix(number, 16).ok()?)
}
