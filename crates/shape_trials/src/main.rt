//! Shapes texts of a stream on standard input, and tests of each answer what the contracts of `shape` promise.
//!
//! A line of the stream begins with its kind: `tables` and TABLES as JSON; `font`, the font's number of glyphs and FONT
//! as JSON; `font-bytes`, a number above those of the font's glyphs, the font's index in its file, and the file's bytes
//! in base64 (RFC 4648, with padding), at which `face` is printed where they are read, else `fault` and the fault's name,
//! table and offset; `words` and words of the program hb_shape, whose settings the texts after it have; `text` and a
//! text, which is a case, and is passed over where no lawful tables, font and words stand; `premises` and any word, at
//! which `kept` or `broken` is printed of the premises of safe breaks on the tables. A case whose answer breaks a promise is printed as `wrong`, its number in the stream and the promise; one
//! whose pieces differ at a safe break where a premise is in doubt, as `unsure` and its number. The last line has the
//! counts. The status is 1 where a case is wrong.
#![tactic(auto)]

mod alike;
mod alone;
mod breaks;
mod counts;
mod font;
mod joined;
mod pieces;
mod premises;
mod promise;
mod session;
mod trial;

use counts::{Counts, Outcome};
use session::Session;
use shell_readers::fault::RunFault;
use std::io;
use std::io::{BufRead, BufReader, Write};
use std::process::ExitCode;

fn main(rt: HostRuntime) -> io::Result<ExitCode> {
    match read_stream(&rt) {
        Ok(counts) => {
            let Counts {
                cases,
                tested,
                breaks,
                unsure,
                wrong,
            } = counts;
            println!(rt;
                "{cases} cases, {tested} tested, {breaks} breaks, {unsure} unsure, {wrong} wrong"
            )?;
            Ok(ExitCode::from(u8::from(wrong > 0)))
        }
        Err(fault) => {
            let mut err = rt.stderr();
            writeln!(err, "shape_trials: {fault}")?;
            Ok(ExitCode::from(fault.status()))
        }
    }
}

/// Takes each line of standard input.
fn read_stream(rt: &HostRuntime) -> Result<Counts, RunFault> {
    let mut session = Session::new(rt.alloc());
    take_lines(rt, &mut session)
}

fn take_lines(rt: &HostRuntime, session: &mut Session) -> Result<Counts, RunFault> {
    let alloc = rt.alloc();
    let mut counts = Counts::default();
    let input = BufReader::new(alloc, rt.reader()).map_err(|_| RunFault::OutOfMemory)?;
    for line in input.lines(alloc) {
        let line = line.map_err(|_| RunFault::Read)?;
        counts = take_line(rt, session, counts, &line)?;
    }
    Ok(counts)
}

/// Takes a line; the counts after it.
fn take_line(
    rt: &HostRuntime,
    session: &mut Session,
    counts: Counts,
    line: &str,
) -> Result<Counts, RunFault> {
    let Some((kind, rest)) = line.split_once(' ') else {
        return Err(RunFault::Words);
    };
    match kind {
        "text" => return test_text(rt, session, counts, rest),
        "premises" => print_premises(rt, session)?,
        "words" => session.take_words(rest)?,
        "font" => session.take_font(rest)?,
        "font-bytes" => take_font_bytes(rt, session, rest)?,
        "tables" => session.take_tables(rest)?,
        _ => return Err(RunFault::Words),
    }
    Ok(counts)
}

/// Takes the bytes of a font file, and prints `face` where they are one, else the fault.
fn take_font_bytes(rt: &HostRuntime, session: &mut Session, line: &str) -> Result<(), RunFault> {
    let printed = match session.take_font_bytes(line)? {
        None => println!(rt; "face"),
        Some(fault) => println!(rt; "fault {fault}"),
    };
    printed.map_err(|_| RunFault::Write)
}

/// Prints whether the tables keep the premises of safe breaks.
fn print_premises(rt: &HostRuntime, session: &Session) -> Result<(), RunFault> {
    let word = if session.keeps_premises() {
        "kept"
    } else {
        "broken"
    };
    println!(rt; "premises {word}").map_err(|_| RunFault::Write)
}

/// Tests a text, and prints the promise that an answer breaks; the counts after it.
fn test_text(
    rt: &HostRuntime,
    session: &Session,
    counts: Counts,
    text: &str,
) -> Result<Counts, RunFault> {
    let outcome = session.test(text)?;
    if let Outcome::Tested(tested) = outcome {
        if tested.unsure > 0 {
            let number = counts.cases;
            println!(rt; "unsure {number}").map_err(|_| RunFault::Write)?;
        }
        if let Some(promise) = tested.broken {
            let (number, name) = (counts.cases, promise.name());
            println!(rt; "wrong {number} {name}").map_err(|_| RunFault::Write)?;
        }
    }
    Ok(counts.with(outcome))
}
