//! Asks fonts what they are read as, which lookups requests lead to, and what lookups would do. The words of the program are
//! files. It prints how many rows each has, and before that the rows that are not followed; the status is then 1. It is 2
//! where a file can't be read.
//!
//! A file `.answers` has tables with an empty line between: each has a font, a line `answers:`, and rows, or
//! `answers by parts:` for a font that is read by its parts as well, which takes less memory. An indented line continues
//! a row. A row has a question with its words, a colon, and the answer as it prints. A table that begins with `#` says
//! what the questions of the file ask. A file `.faults` has lines with a fault, a colon, and the font that is refused for
//! it.
#![tactic(auto)]

mod counts;
mod digests;
mod faults;
mod fonts;
mod maps;
mod positions;
mod requests;
mod rows;
mod scripts;
mod stop;
mod substitutions;

use crate::counts::Counts;
use crate::stop::Stop;
use shell_json::fault::JsonFault;
use std::io::Write;
use std::process::ExitCode;
use std::{env, fs, io};

fn main(rt: HostRuntime) -> io::Result<ExitCode> {
    match ran(&rt) {
        Ok(wrong) => Ok(ExitCode::from(u8::from(wrong > 0))),
        Err(stop) => {
            let mut err = rt.stderr();
            writeln!(err, "tests_layout: {}", stop.name())?;
            Ok(ExitCode::from(2))
        }
    }
}

/// Takes each file; how many rows are not followed, and how many sizes are not.
fn ran(rt: &HostRuntime) -> Result<usize, Stop> {
    let words: Vec<String> = match env::args(rt) {
        Ok(words) => words.collect(rt.alloc())?,
        Err(_) => return Err(Stop::Unreadable),
    };
    let mut wrong = wrong_sizes(rt)?;
    for word in words.iter().skip(1) {
        wrong = wrong.saturating_add(take_file(rt, word)?);
    }
    Ok(wrong)
}

/// Takes the rows of a file, and prints their count; how many are not followed.
fn take_file(rt: &HostRuntime, name: &str) -> Result<usize, Stop> {
    let Ok(bytes) = fs::read(rt, name) else {
        return Err(Stop::Unreadable);
    };
    let Ok(text) = str::from_utf8(&bytes) else {
        return Err(Stop::Unreadable);
    };
    let Counts { rows, wrong } = take_rows(rt, name, text)?;
    match println!(rt; "{name}: {rows} rows") {
        Ok(()) => Ok(wrong),
        Err(_) => Err(Stop::Unwritten),
    }
}

fn take_rows(rt: &HostRuntime, name: &str, text: &str) -> Result<Counts, Stop> {
    if name.ends_with(".faults") {
        take_faults(rt, text)
    } else {
        rows::follow_tables(rt, text)
    }
}

fn take_faults(rt: &HostRuntime, text: &str) -> Result<Counts, Stop> {
    let mut counts = Counts::default();
    for line in text.lines() {
        if !line.starts_with('#') {
            let is_refused = faults::is_refused(rt.alloc(), line)?;
            counts = counts.and(taken(rt, is_refused, line)?);
        }
    }
    Ok(counts)
}

/// The counts of a row; one that is not followed is printed.
fn taken(rt: &HostRuntime, is_followed: bool, row: &str) -> Result<Counts, Stop> {
    if is_followed {
        return Ok(Counts { rows: 1, wrong: 0 });
    }
    match println!(rt; "{row}") {
        Ok(()) => Ok(Counts { rows: 1, wrong: 1 }),
        Err(_) => Err(Stop::Unwritten),
    }
}

/// How many lists are wrong that are too long for rows; each is named.
fn wrong_sizes(rt: &HostRuntime) -> Result<usize, Stop> {
    let alloc = rt.alloc();
    let requests = requests::many_requests_are_merged(alloc)?;
    let lookups = requests::many_lookups_are_merged(alloc)?;
    let sets = faults::too_many_sets_are_refused(alloc)?;
    let counts = taken(rt, requests, "many requests are merged")?
        .and(taken(rt, lookups, "many lookups are merged")?)
        .and(taken(rt, sets, "too many sets are refused")?)
        .and(taken(rt, many_characters(rt)?, "many characters")?);
    Ok(counts.wrong)
}

fn many_characters(rt: &HostRuntime) -> Result<bool, Stop> {
    match fonts::has_many_characters(rt.alloc()) {
        Ok(has) => Ok(has),
        Err(JsonFault::OutOfMemory) => Err(Stop::OutOfMemory),
        Err(_) => Ok(false),
    }
}
