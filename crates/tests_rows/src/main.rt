//! Shapes the texts of rows, and compares what is printed with what each row wants. The words of the program are files of
//! rows. It prints how many rows each file has, and before that the name of each row that is not followed, with what was
//! printed; the status is then 1. It is 2 where a file can't be read, or has a line of another kind.
//!
//! A file has lines. One that begins with two spaces continues the line before it, and one that begins with `#`, and an
//! empty one, says nothing. Others begin with `@name`, and then give a name to a text, which stands wherever the name
//! stands between two `$`; with `@tables`, `@options` or `@font`, for what the rows after it are shaped with, each until
//! the next; or they are rows. A row has a name, a font, options, a text, and what is wanted, with semicolons between.
//! Its font follows that of `@font`, and its options those of `@options`.
//!
//! A text is its characters, and then their numbers after `U+`, unless all are of ASCII; where a character has no picture,
//! it is the numbers alone. A number with `x` before it is a byte.
//!
//! Wanted are the printed lines, with semicolons between; a run that is refused prints at last `! ` and its fault, and
//! `no output` is no line at all. Or other texts are wanted, each after `= `, which have to print the same.
#![tactic(auto)]

mod fault;
mod options;
mod row;
mod settings;
mod shaped;
mod text;

use crate::fault::RowFault;
use crate::settings::Settings;
use std::io::Write;
use std::process::ExitCode;
use std::{env, fs, io};

fn main(rt: HostRuntime) -> io::Result<ExitCode> {
    match ran(&rt) {
        Ok(wrong) => Ok(ExitCode::from(u8::from(wrong > 0))),
        Err(fault) => {
            let mut err = rt.stderr();
            writeln!(err, "tests_rows: {}", fault.name())?;
            Ok(ExitCode::from(2))
        }
    }
}

/// Takes each file; how many rows are not followed.
fn ran(rt: &HostRuntime) -> Result<u64, RowFault> {
    let alloc = rt.alloc();
    let words: Vec<String> = match env::args(rt) {
        Ok(words) => words.collect(alloc)?,
        Err(_) => return Err(RowFault::Unreadable),
    };
    let mut wrong = 0_u64;
    for word in words.iter().skip(1) {
        wrong = wrong.saturating_add(take_file(rt, word)?);
    }
    Ok(wrong)
}

/// Takes the rows of a file, and prints their count; how many are not followed.
fn take_file(rt: &HostRuntime, name: &str) -> Result<u64, RowFault> {
    let Ok(bytes) = fs::read(rt, name) else {
        return Err(RowFault::Unreadable);
    };
    let Ok(text) = str::from_utf8(&bytes) else {
        return Err(RowFault::Unreadable);
    };
    let Counts { rows, wrong } = take_lines(rt, text)?;
    match println!(rt; "{name}: {rows} rows") {
        Ok(()) => Ok(wrong),
        Err(_) => Err(RowFault::Unwritten),
    }
}

/// How many rows there were, and how many of them were not followed.
#[derive(Clone, Copy, Default)]
struct Counts {
    rows: u64,
    wrong: u64,
}

impl Counts {
    /// The counts after one more row.
    fn with(self, is_followed: bool) -> Counts {
        Counts {
            rows: self.rows.saturating_add(1),
            wrong: self.wrong.saturating_add(u64::from(!is_followed)),
        }
    }
}

fn take_lines(rt: &HostRuntime, text: &str) -> Result<Counts, RowFault> {
    let text = text.replace(rt.alloc(), "\n  ", "")?;
    let mut settings = Settings::new(rt.alloc());
    take_each(rt, &mut settings, &text)
}

fn take_each(rt: &HostRuntime, settings: &mut Settings, text: &str) -> Result<Counts, RowFault> {
    let mut counts = Counts::default();
    for line in text.lines() {
        if !settings.is_setting(line)? {
            counts = counts.with(is_followed(rt, settings, line)?);
        }
    }
    Ok(counts)
}

/// Whether a row is followed. What one that isn't prints is printed after its name, or why it can't be shaped.
fn is_followed(rt: &HostRuntime, settings: &Settings, row: &str) -> Result<bool, RowFault> {
    let printed = match row::printed_beside(settings, row) {
        Ok(None) => return Ok(true),
        Ok(Some(printed)) => printed,
        Err(RowFault::Row(fault)) => String::from_str(rt.alloc(), fault)?,
        Err(fault) => return Err(fault),
    };
    let (name, printed) = (row::field(row, 0), printed.trim_end());
    match println!(rt; "{name}: {printed}") {
        Ok(()) => Ok(false),
        Err(_) => Err(RowFault::Unwritten),
    }
}
