//! Fonts and what they answer: each question with its words, and the answer as it prints. One function owns the fonts,
//! since each function that does is dear to prove.
use crate::counts::Counts;
use crate::stop::Stop;
use crate::{digests, fonts, maps, positions, requests, scripts, substitutions};
use layout_face::Face;
use shell_face_json::{read_by_keys, read_face_text};
use shell_json::fault::JsonFault;
use std::alloc::{AllocError, Global};
use std::fmt::Debug;

/// Follows the tables of a file, and prints the first row of each whose font doesn't give its answer.
pub(crate) fn follow_tables(rt: &HostRuntime, text: &str) -> Result<Counts, Stop> {
    let mut counts = Counts::default();
    for table in text.split("\n\n") {
        if !table.starts_with('#') {
            counts = counts.and(follow(rt, table)?);
        }
    }
    Ok(counts)
}

fn follow(rt: &HostRuntime, table: &str) -> Result<Counts, Stop> {
    let Some((font, rows)) = table.split_once("\nanswers") else {
        return Err(Stop::Unreadable);
    };
    let Some((way, rows)) = rows.split_once('\n') else {
        return Err(Stop::Unreadable);
    };
    if way == " by parts:" {
        read_by_parts(rt.alloc(), font)?;
    }
    let rows = rows.replace(rt.alloc(), "\n  ", " ")?;
    follow_rows(rt, font, &rows)
}

fn follow_rows(rt: &HostRuntime, font: &str, rows: &str) -> Result<Counts, Stop> {
    let count = rows.lines().count();
    let printed = match first_wrong(rt.alloc(), font, rows) {
        Ok(None) => return Ok(Counts {
            rows: count,
            wrong: 0,
        }),
        Ok(Some(row)) => println!(rt; "{row}"),
        Err(JsonFault::OutOfMemory) => return Err(Stop::OutOfMemory),
        Err(fault) => println!(rt; "{}: {font}", fault.name()),
    };
    match printed {
        Ok(()) => Ok(Counts {
            rows: count,
            wrong: 1,
        }),
        Err(_) => Err(Stop::Unwritten),
    }
}

/// Reads a font that can be read by its parts, so that only want of memory can prevent it.
fn read_by_parts(alloc: Global, font: &str) -> Result<(), AllocError> {
    match read_by_keys(alloc, font) {
        Ok(_) => Ok(()),
        Err(_) => Err(AllocError),
    }
}

/// The first row whose answer a font doesn't give, or the fault for which the font is refused.
pub(crate) fn first_wrong<'a>(
    alloc: Global,
    text: &str,
    rows: &'a str,
) -> Result<Option<&'a str>, JsonFault> {
    let font = read_face_text(alloc, text)?;
    first_wrong_row(alloc, &font, rows)
}

fn first_wrong_row<'a>(
    alloc: Global,
    font: &Face,
    rows: &'a str,
) -> Result<Option<&'a str>, JsonFault> {
    for row in rows.lines() {
        if !is_answered(alloc, font, row)? {
            return Ok(Some(row));
        }
    }
    Ok(None)
}

/// Whether the answer to a question is that of its row.
fn is_answered(alloc: Global, font: &Face, row: &str) -> Result<bool, AllocError> {
    let Some((kind, question, answer)) = parts_of(row) else {
        return Ok(false);
    };
    match kind {
        "character" => fonts::answers_of_characters(alloc, font, question, answer),
        "map" => maps::answers(alloc, font, question, answer),
        "fields" | "lookups" | "merged" => requests::answers(alloc, kind, question, answer),
        "list" => scripts::answers(alloc, font, question, answer),
        "set" => digests::answers(alloc, question, answer),
        _ => {
            let (question, words) = question.split_once(' ').unwrap_or((question, ""));
            numbers_answer(alloc, font, kind, question, words, answer)
        }
    }
}

/// What a row asks about, its question with the words, and the answer.
fn parts_of(row: &str) -> Option<(&str, &str, &str)> {
    let (question, answer) = row.split_once(": ")?;
    let (kind, question) = question.split_once(' ')?;
    Some((kind, question, answer))
}

/// Whether the answer to a question of numbers is that of its row.
fn numbers_answer(
    alloc: Global,
    font: &Face,
    kind: &str,
    question: &str,
    words: &str,
    answer: &str,
) -> Result<bool, AllocError> {
    let numbers = numbers_of(alloc, words)?;
    match (kind, font.gsub(), font.gpos()) {
        ("gsub", Some(table), _) => {
            substitutions::answers(alloc, table, question, &numbers, answer)
        }
        ("gpos", _, Some(table)) => positions::answers(alloc, table, question, &numbers, answer),
        _ => fonts::answers(alloc, font, question, number(&numbers, 0), answer),
    }
}

/// The numbers of a question; 65535 for a word that is none.
fn numbers_of(alloc: Global, words: &str) -> Result<Vec<u16>, AllocError> {
    let mut numbers = Vec::new(alloc);
    for word in words.split_whitespace() {
        numbers.push(word.parse::<u16>().unwrap_or(u16::MAX))?;
    }
    Ok(numbers)
}

/// A number of a question; 0 where it has no more.
pub(crate) fn number(numbers: &[u16], at: usize) -> u16 {
    numbers.get(at).copied().unwrap_or(0)
}

/// Whether a value prints as a text.
pub(crate) fn prints<T: Debug>(alloc: Global, value: &T, text: &str) -> Result<bool, AllocError> {
    let printed = format!(in alloc; "{value:?}")?;
    Ok(printed.as_str() == text)
}
