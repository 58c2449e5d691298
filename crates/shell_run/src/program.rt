//! The program, over its command-line words, its files and its output streams.
ghost use Rattle.std.specs.Prelude.{◌≡◌, IfErr, OnOk, map, string_bytes};
ghost use Rattle.shell_run.specs.Lines.{fault_of};
ghost use Rattle.shell_run.specs.Program.{Reports, Runs, line_of_end, status_of_end};

use crate::files::{Files, open_files};
use crate::report::report;
use crate::running::run;
use shell_readers::fault::RunFault;
use shell_words::parse_options;
use std::alloc::Global;
use std::io::{Read, Write};

/// How the program ended.
#[derive(Clone, Copy, PartialEq, Eq, Debug)]
pub struct Ending {
    /// The fault; `None` where the lines were written.
    pub fault: Option<RunFault>,
    /// Whether the fault's line could be written to standard error; true without a fault.
    pub is_reported: bool,
}

impl Ending {
    /// The exit status: 0 without a fault, else that of the fault, also where it could not be reported.
    pub fn status(self) -> u8
        ensures { result ≡ status_of_end self.fault }
    {
        match self.fault {
            None => 0,
            Some(fault) => fault.status(),
        }
    }
}

/// Ends the program: writes the line of its fault, where it has one, to `err`.
pub fn end<E: Write>(answer: Result<(), RunFault>, err: &mut E) -> Ending
    ensures fault { result.fault ≡ fault_of answer }
    ensures reported { Reports result.is_reported (E.contents err.old) (E.contents err.new) (line_of_end result.fault) }
{
    match answer {
        Ok(()) => Ending {
            fault: None,
            is_reported: true,
        },
        Err(fault) => {
            let is_reported = report(err, fault).is_ok();
            Ending {
                fault: Some(fault),
                is_reported,
            }
        }
    }
}

/// Runs the program with its command-line words: opens tables, font and text, `-` for standard input, in this order, writes
/// the printed lines to `out`, and the line of a fault to `err`.
pub fn run_program<F: Read + Drop, O: Files<F>, W: Write, E: Write>(
    alloc: Global,
    words: &[String],
    files: &mut O,
    out: &mut W,
    err: &mut E,
) -> Ending
    ensures ran { Runs (map string_bytes words.now) (O.bytes files.old) (O.asked files.old) (O.asked files.new) (W.contents out.old) (W.contents out.new) result.fault }
    ensures reported { Reports result.is_reported (E.contents err.old) (E.contents err.new) (line_of_end result.fault) }
{
    let answer = run_words(alloc, words, files, out);
    end(answer, err)
}

/// The run of the command-line words.
fn run_words<F: Read + Drop, O: Files<F>, W: Write>(
    alloc: Global,
    words: &[String],
    files: &mut O,
    out: &mut W,
) -> Result<(), RunFault>
    ensures { Runs (map string_bytes words.now) (O.bytes files.old) (O.asked files.old) (O.asked files.new) (W.contents out.old) (W.contents out.new) (fault_of result) }
{
    let line = parse_options(alloc, words)?;
    let mut opened = open_files(files, &line)?;
    run(
        alloc,
        line.options,
        &mut opened.tables,
        &mut opened.font,
        &mut opened.text,
        out,
    )
}
