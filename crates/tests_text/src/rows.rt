//! Tables of rows: what is asked, and the answer. Each module has a table, and says whether a row of it is so.
//!
//! The list of tables has the form of that of `tests_stages` (`tables`): each names the modules of its own crate.
use crate::{
    characters, features, glyph_words, machines, names, number_rows, printing, table_faults, texts,
    unicode_characters, values, words,
};
use std::alloc::{AllocError, Global};
use std::fmt::Debug;
use std::test::Fail;

/// The tables, by their modules.
#[derive(Clone, Copy)]
enum Table {
    Characters,
    Words,
    Features,
    GlyphWords,
    Machines,
    Names,
    NumberRows,
    Printing,
    TableFaults,
    Texts,
    UnicodeCharacters,
    Values,
}

fn tables() -> [(Table, &'static str); 12] {
    [
        (Table::Characters, characters::ROWS),
        (Table::Words, words::ROWS),
        (Table::Features, features::ROWS),
        (Table::GlyphWords, glyph_words::ROWS),
        (Table::Machines, machines::rows()),
        (Table::Names, names::ROWS),
        (Table::NumberRows, number_rows::ROWS),
        (Table::Printing, printing::ROWS),
        (Table::TableFaults, table_faults::ROWS),
        (Table::Texts, texts::ROWS),
        (Table::UnicodeCharacters, unicode_characters::ROWS),
        (Table::Values, values::ROWS),
    ]
}

fn is_so(alloc: Global, table: Table, row: &'static str) -> Result<bool, Fail> {
    match table {
        Table::Characters => characters::is_so(alloc, row),
        Table::Words => words::is_so(alloc, row),
        Table::Features => features::is_so(alloc, row),
        Table::GlyphWords => glyph_words::is_so(alloc, row),
        Table::Machines => machines::is_so(alloc, row),
        Table::Names => names::is_so(alloc, row),
        Table::NumberRows => number_rows::is_so(alloc, row),
        Table::Printing => printing::is_so(alloc, row),
        Table::TableFaults => table_faults::is_so(alloc, row),
        Table::Texts => texts::is_so(alloc, row),
        Table::UnicodeCharacters => unicode_characters::is_so(alloc, row),
        Table::Values => values::is_so(alloc, row),
    }
}

#[test]
fn rows_are_so(rt: HostRuntime) -> Result<(), Fail> {
    for (table, rows) in tables() {
        for row in rows.lines() {
            let is_so = is_so(rt.alloc(), table, row)?;
            assert!(rt; is_so, "{row}");
        }
    }
    Ok(())
}

/// Whether a value prints as a text.
pub(crate) fn prints<T: Debug>(alloc: Global, value: &T, text: &str) -> Result<bool, Fail> {
    let printed = format!(in alloc; "{value:?}")?;
    Ok(printed.as_str() == text)
}

/// The question of a row, its words and the answer: `question words: answer`.
pub(crate) fn asked(row: &str) -> Option<(&str, &str, &str)> {
    let (question, answer) = row.split_once(": ")?;
    let (question, words) = question.split_once(' ')?;
    Some((question, words, answer))
}

/// A field of a row, between semicolons.
pub(crate) fn part(row: &str, at: usize) -> &str {
    row.split(';').nth(at).unwrap_or("")
}

/// A hexadecimal number.
pub(crate) fn hexadecimal(digits: &str) -> Option<u32> {
    u32::from_str_radix(digits, 16).ok()
}

/// A character by its hexadecimal number.
pub(crate) fn character(digits: &str) -> Option<char> {
    char::from_u32(hexadecimal(digits)?)
}
