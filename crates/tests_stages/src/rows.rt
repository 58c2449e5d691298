//! Tables of tests, as texts. A row begins at the margin, and indented lines continue it; a line that begins with `#`
//! says what the rows after it have in common. The fields of a row are separated by semicolons, of which the first is
//! its name; options are words with a key and a value, and masks are hexadecimal.
ghost use Rattle.std.specs.Prelude.{◌≡◌};
ghost use Rattle.std.specs.Int.RustNames.{bit_and};
ghost use Rattle.buffer_glyphs.specs.declared.info.TheConstants.{DEFINED};

use buffer_common::direction::Direction;
use buffer_common::script::Script;
use buffer_common::tag::Tag;
use buffer_glyphs::level::BufferClusterLevel;
use std::alloc::{AllocError, Global};
use std::test::Fail;

/// The rows of a table, a line each.
pub fn rows_of(alloc: Global, table: &str) -> Result<String, AllocError> {
    table.replace(alloc, "\n  ", "")
}

/// Whether a line is a row.
pub fn is_row(line: &str) -> bool {
    !line.is_empty() && !line.starts_with('#')
}

/// A field of a row.
pub fn part(row: &str, at: usize) -> &str {
    row.split(';').nth(at).unwrap_or("").trim()
}

/// What has a name, from the lines of a table that begin with the name.
pub fn named<'a>(rows: &'a str, name: &str) -> Result<&'a str, Fail> {
    for line in rows.lines() {
        if let Some((found, rest)) = line.split_once(' ') {
            if found == name {
                return Ok(rest);
            }
        }
    }
    Err("no such name".into())
}

/// The value of a key among words, empty where it is missing.
pub fn value<'a>(words: &'a str, key: &str) -> &'a str {
    for word in words.split_whitespace() {
        if let Some((found, value)) = word.split_once('=') {
            if found == key {
                return value;
            }
        }
    }
    ""
}

/// The number of a key, zero where it is missing.
pub fn natural(words: &str, key: &str) -> u32 {
    value(words, key).parse::<u32>().unwrap_or(0)
}

/// The signed number of a key, zero where it is missing.
pub fn distance(words: &str, key: &str) -> i32 {
    value(words, key).parse::<i32>().unwrap_or(0)
}

/// The hexadecimal number of a key, zero where it is missing.
pub fn hexadecimal(words: &str, key: &str) -> u32 {
    u32::from_str_radix(value(words, key), 16).unwrap_or(0)
}

/// A mask without glyph flags.
#[tactic(auto, using(crate::proofs::Masks::eightfold))]
pub fn mask(words: &str, key: &str) -> u32
    ensures { bit_and result DEFINED ≡ 0 }
{
    let bits = hexadecimal(words, key);
    bits / 8 * 8
}

/// A cluster level by its number.
pub fn level_of(number: &str) -> BufferClusterLevel {
    match number {
        "1" => BufferClusterLevel::MonotoneCharacters,
        "2" => BufferClusterLevel::Characters,
        "3" => BufferClusterLevel::Graphemes,
        _ => BufferClusterLevel::MonotoneGraphemes,
    }
}

/// A direction by its name, left to right by any other.
pub fn direction_of(name: &str) -> Direction {
    match name {
        "rtl" => Direction::RightToLeft,
        "ttb" => Direction::TopToBottom,
        "btt" => Direction::BottomToTop,
        _ => Direction::LeftToRight,
    }
}

/// A script by its tag; none by no tag.
pub fn script_of(name: &str) -> Option<Script> {
    if name.is_empty() {
        return None;
    }
    Script::from_iso15924_tag(Tag::from_bytes_lossy(name.as_bytes()))
}

/// A text of the characters that these hexadecimal numbers name.
pub fn characters(alloc: Global, numbers: &str) -> Result<String, Fail> {
    let mut text = String::new(alloc);
    for number in numbers.split_whitespace() {
        let number = u32::from_str_radix(number, 16)?;
        text.push(char::from_u32(number).ok_or("no character")?)?;
    }
    Ok(text)
}
