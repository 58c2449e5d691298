//! JSON values, each with its fault.
use crate::rows::part;
use buffer_common::tag::Tag;
use serde_json::Value;
use shell_json::cell::Cell;
use shell_json::fault::JsonFault;
use shell_json::items::{four_items, list_at, natural_number_below, three_items, two_items};
use shell_json::keys::read_key;
use std::alloc::Global;
use std::test::Fail;

/// What is read of a value, the answer, and the value, separated by semicolons: a character followed by a number of
/// 16 bits, of two faults the one that is first by its kind; a byte, a number below 70000 and a tag; a row of two,
/// of three and of four; the number of items in `k`, none where that is no list; and the character of a key, 120
/// where it is missing.
pub(crate) static ROWS: &str = r#"pair;read;[97,-2]
pair;U2 OutOfRange;[97,-32769]
pair;U2 OutOfRange;[55296,0]
pair;J2 WrongShape;[55296,"x"]
pair;J3 FloatNumber;[1114112,1.5]
pair;J3 FloatNumber;[18446744073709551616,0]
pair;J2 WrongShape;[97]
pair;J2 WrongShape;3
byte;read;255
number;read;255
tag;J2 WrongShape;255
byte;U2 OutOfRange;256
number;read;256
tag;J2 WrongShape;256
byte;U2 OutOfRange;70000
number;U2 OutOfRange;70000
tag;J2 WrongShape;70000
byte;U2 OutOfRange;-1
number;U2 OutOfRange;-1
tag;J2 WrongShape;-1
byte;J2 WrongShape;"liga"
number;J2 WrongShape;"liga"
tag;read;"liga"
byte;J2 WrongShape;""
number;J2 WrongShape;""
tag;J2 WrongShape;""
two;J2 WrongShape;{}
three;J2 WrongShape;{}
four;J2 WrongShape;{}
two;J2 WrongShape;[1]
three;J2 WrongShape;[1]
four;J2 WrongShape;[1]
two;read;[1,2]
three;J2 WrongShape;[1,2]
four;J2 WrongShape;[1,2]
two;J2 WrongShape;[1,2,3]
three;read;[1,2,3]
four;J2 WrongShape;[1,2,3]
two;J2 WrongShape;[1,2,3,4]
three;J2 WrongShape;[1,2,3,4]
four;read;[1,2,3,4]
two;J2 WrongShape;[1,2,3,4,5]
three;J2 WrongShape;[1,2,3,4,5]
four;J2 WrongShape;[1,2,3,4,5]
list;0;{}
list;3;{"k":[1,2,3]}
list;none;{"k":1}
key a;read 65;{"a":65,"b":55296}
key b;U2 OutOfRange;{"a":65,"b":55296}
key c;read 120;{"a":65,"b":55296}"#;

fn name_of(fault: Option<JsonFault>) -> &'static str {
    match fault {
        Some(fault) => fault.name(),
        None => "read",
    }
}

fn count_in_k(value: &Value) -> Option<usize> {
    match list_at(value, "k") {
        Ok(items) => Some(items.len()),
        Err(_) => None,
    }
}

fn is_key(value: &Value, key: &str, answer: &str) -> bool {
    match read_key(value, key, 'x') {
        Ok(c) => match answer.strip_prefix("read ") {
            Some(number) => number.parse::<u32>() == Ok(u32::from(c)),
            None => false,
        },
        Err(fault) => fault.name() == answer,
    }
}

fn is_answer(value: &Value, asked: &str, answer: &str) -> bool {
    match asked {
        "key a" => is_key(value, "a", answer),
        "key b" => is_key(value, "b", answer),
        "key c" => is_key(value, "c", answer),
        "pair" => name_of(<(char, i16)>::read(value).err()) == answer,
        "byte" => name_of(u8::read(value).err()) == answer,
        "number" => name_of(natural_number_below(value, 70_000).err()) == answer,
        "tag" => name_of(Tag::read(value).err()) == answer,
        "two" => name_of(two_items(value).err()) == answer,
        "three" => name_of(three_items(value).err()) == answer,
        "four" => name_of(four_items(value).err()) == answer,
        _ => count_in_k(value) == answer.parse::<usize>().ok(),
    }
}

/// Whether a value is read as a row says.
pub(crate) fn is_so(alloc: Global, row: &str) -> Result<bool, Fail> {
    let value = Value::from_str(alloc, part(row, 2))?;
    Ok(is_answer(&value, part(row, 0), part(row, 1)))
}
