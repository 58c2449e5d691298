//! Rows of numbers that are read, found and refused.
use crate::rows::{asked, character, hexadecimal, prints};
use buffer_unicode::{CharacterRange, CharacterRanges, Pair, Split, find_by_key, read_rows};
use buffer_unicode_tables::{TablesFault, UnicodeRows, UnicodeTables};
use std::alloc::{AllocError, Global};
use std::test::Fail;

/// The fault of tables with decompositions, and of a list of them; the second half of U+0041, U+00E1 or U+1B06, and the
/// composition of U+0041 or U+0061 with U+0300, where there is one; and whether a character is within the overlapping
/// ranges b to x, d to e and z to a, of which the last is empty.
pub(crate) static ROWS: &str = "\
tables 41 61 0, 42 62 0: None
tables e1 61 301, c1 41 301: Some(OutOfOrder)
tables e1 61 301, c1 41 110000: Some(OutOfRange)
tables 61 61 62, 62 63 0: Some(SplitDepth)
splits 1 2 3, 1 2 3: Some(OutOfOrder)
splits 1 2 3, 1 d800 3: Some(OutOfRange)
second e1: 301
second e2: none
whole 61 300: e0
whole 61 301: none
within 61: false
within 62: true
within 64: true
within 78: true
within 79: false
within 7a: false";

/// Three hexadecimal numbers.
fn three_numbers(text: &str) -> Option<[u32; 3]> {
    let mut words = text.split_whitespace();
    let first = hexadecimal(words.next()?)?;
    let second = hexadecimal(words.next()?)?;
    Some([first, second, hexadecimal(words.next()?)?])
}

/// Rows of three hexadecimal numbers.
fn numbers(alloc: Global, text: &str) -> Result<Vec<[u32; 3]>, Fail> {
    let mut rows = Vec::new(alloc);
    for row in text.split(',') {
        rows.push(three_numbers(row).ok_or("no three numbers")?)?;
    }
    Ok(rows)
}

fn split_rows(alloc: Global, splits: &[[u32; 3]]) -> Result<UnicodeRows, AllocError> {
    let mut rows = UnicodeRows::new(alloc);
    rows.splits.extend_from_slice(splits)?;
    Ok(rows)
}

/// A fault, where it isn't want of memory.
fn but_for_memory(fault: Option<TablesFault>) -> Result<Option<TablesFault>, AllocError> {
    match fault {
        Some(TablesFault::OutOfMemory) => Err(AllocError),
        _ => Ok(fault),
    }
}

fn fault(alloc: Global, splits: &[[u32; 3]]) -> Result<Option<TablesFault>, AllocError> {
    let rows = split_rows(alloc, splits)?;
    but_for_memory(UnicodeTables::new(alloc, &rows).err())
}

fn fault_of(alloc: Global, rows: &[[u32; 3]]) -> Result<Option<TablesFault>, AllocError> {
    let splits: Result<Vec<Split>, TablesFault> = read_rows(alloc, rows);
    but_for_memory(splits.err())
}

fn second_of(alloc: Global, whole: u32) -> Result<Option<char>, TablesFault> {
    let rows = [[0x41, 1, 2], [0xE1, 0x61, 0x301], [0x1B06, 0x1B05, 0x1B35]];
    let splits: Vec<Split> = read_rows(alloc, &rows)?;
    Ok(find_by_key(&splits, 0, whole).map(|row| row.second))
}

fn whole_of(alloc: Global, first: u32, second: u32) -> Result<Option<char>, TablesFault> {
    let rows = [[0x41, 0x300, 0xC0], [0x61, 0x300, 0xE0]];
    let pairs: Vec<Pair> = read_rows(alloc, &rows)?;
    Ok(find_by_key(&pairs, first, second).map(|row| row.whole))
}

fn ranges(alloc: Global) -> Result<CharacterRanges, AllocError> {
    let mut rows = Vec::new(alloc);
    rows.push(CharacterRange {
        first: 'b',
        last: 'x',
    })?;
    rows.push(CharacterRange {
        first: 'd',
        last: 'e',
    })?;
    rows.push(CharacterRange {
        first: 'z',
        last: 'a',
    })?;
    CharacterRanges::new(alloc, rows)
}

/// Whether the character that was found is that of an answer.
fn is_character(found: Option<char>, answer: &str) -> bool {
    match found {
        Some(c) => hexadecimal(answer) == Some(u32::from(c)),
        None => answer == "none",
    }
}

fn is_within(alloc: Global, digits: &str) -> Result<bool, Fail> {
    let c = character(digits).ok_or("no character")?;
    Ok(ranges(alloc)?.contains(c))
}

/// The fault of the tables, or of the list, with decompositions.
fn fault_in(alloc: Global, question: &str, words: &str) -> Result<Option<TablesFault>, Fail> {
    let rows = numbers(alloc, words)?;
    match question {
        "tables" => Ok(fault(alloc, &rows)?),
        _ => Ok(fault_of(alloc, &rows)?),
    }
}

/// Whether rows are read, found or refused as a row says.
pub(crate) fn is_so(alloc: Global, row: &str) -> Result<bool, Fail> {
    let Some((question, words, answer)) = asked(row) else {
        return Ok(false);
    };
    let (first, second) = words.split_once(' ').unwrap_or((words, "0"));
    let Some(first) = hexadecimal(first) else {
        return Ok(false);
    };
    let second = hexadecimal(second).unwrap_or(0);
    match question {
        "second" => Ok(is_character(second_of(alloc, first)?, answer)),
        "whole" => Ok(is_character(whole_of(alloc, first, second)?, answer)),
        "within" => prints(alloc, &is_within(alloc, words)?, answer),
        _ => prints(alloc, &fault_in(alloc, question, words)?, answer),
    }
}
