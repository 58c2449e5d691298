//! Reads numbers and tags.
ghost use Rattle.shell_json.specs.Cell.{i16_value, character};
ghost use Rattle.shell_json.specs.Items.{tag};
ghost use Rattle.shell_face_json.specs.Lists.{number_below};

use crate::value::FromJson;
use buffer_common::tag::Tag;
use serde_json::Value;
use shell_json::cell::Cell;
use shell_json::fault::JsonFault;
use std::alloc::Global;

impl FromJson for u16 {
    ghost font_value = { number_below };

    fn from_json(_alloc: Global, value: &Value, limit: usize) -> Result<u16, JsonFault> {
        let number = u16::read(value)?;
        if usize::from(number) < limit {
            Ok(number)
        } else {
            Err(JsonFault::OutOfRange)
        }
    }
}

impl FromJson for i16 {
    ghost font_value = { λ _. i16_value };

    fn from_json(_alloc: Global, value: &Value, _limit: usize) -> Result<i16, JsonFault> {
        i16::read(value)
    }
}

impl FromJson for char {
    ghost font_value = { λ _. character };

    fn from_json(_alloc: Global, value: &Value, _limit: usize) -> Result<char, JsonFault> {
        char::read(value)
    }
}

impl FromJson for Tag {
    ghost font_value = { λ _. tag };

    fn from_json(_alloc: Global, value: &Value, _limit: usize) -> Result<Tag, JsonFault> {
        Tag::read(value)
    }
}
