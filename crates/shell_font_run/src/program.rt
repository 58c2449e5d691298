//! The program kuspveli, over its command-line words, its files and its output streams.
ghost use Rattle.std.specs.Prelude.{◌≡◌, ⊤, [], Result, map, string_bytes};
ghost use Rattle.shell_run.specs.Program.{Reports};
ghost use Rattle.shell_font_run.specs.declared.fault.FontRunFault.{FontRunFault};
ghost use Rattle.shell_font_run.specs.Program.{DoesFont, EndsFontProgram, IsSaying, PrintsFont, RunsText, cause_of, line_of, result_of};

use crate::fault::{FontRunFault, end, fault_of_run};
use crate::line::{print_file, run_line};
use crate::texts::{USAGE, VERSION_LINE};
use shell_run::files::Files;
use shell_run::program::Ending;
use shell_run::write_lines;
use shell_words::{FontCommand, FontLine, parse_font_options};
use std::alloc::Global;
use std::io::{Read, Write};

/// Runs the program with its command-line words `kuspveli [options] FONT [TEXT]`: reads the font file, and the text from
/// standard input where there is none among the words, writes the printed lines to `out`, and the line of a fault to
/// `err`. With `--json` it writes the font as JSON, with `--help` what its words are, with `--version` which version it is.
pub fn run_font_program<F: Read + Drop, O: Files<F>, W: Write, E: Write>(
    alloc: Global,
    words: &[String],
    files: &mut O,
    out: &mut W,
    err: &mut E,
) -> Ending
    ensures { EndsFontProgram (map string_bytes words.now) (O.bytes files.old) (O.asked files.old) (O.asked files.new)
        (W.contents out.old) (W.contents out.new) (E.contents err.old) (E.contents err.new) result }
{
    match parse_font_options(alloc, words) {
        Ok(FontCommand::Shaping(line)) => shape_line(alloc, line, files, out, err),
        Ok(FontCommand::Printing(name, face)) => print_named(alloc, &name, face, files, out, err),
        Ok(FontCommand::Usage) => say(USAGE, out, err),
        Ok(FontCommand::Version) => say(VERSION_LINE, out, err),
        Err(cause) => end("", fault_of_run(cause), err),
    }
}

/// Shapes the text of a command line, and ends by its fault, if there is one.
fn shape_line<F: Read + Drop, O: Files<F>, W: Write, E: Write>(
    alloc: Global,
    line: FontLine,
    files: &mut O,
    out: &mut W,
    err: &mut E,
) -> Ending
    ensures { (ran : Result ⊤ FontRunFault) × DoesFont (string_bytes line.font) (O.bytes files.old)
        (O.asked files.old) (O.asked files.new) (W.contents out.old) (W.contents out.new)
        (RunsText line (O.bytes files.old) (W.contents out.old) (W.contents out.new)) ran
        × (result.fault ≡ cause_of ran) × Reports result.is_reported (E.contents err.old) (E.contents err.new)
        (line_of (string_bytes line.font) ran) }
{
    let ran = run_line(alloc, &line, files, out);
    let ending = end_of(&line.font, ran, err);
    // In one step: left to the end, each of its fields is a step of this function's proof.
    drop(line);
    ending
}

/// Prints the font with an index of a font file, and ends by its fault, if there is one.
fn print_named<F: Read + Drop, O: Files<F>, W: Write, E: Write>(
    alloc: Global,
    name: &str,
    face: usize,
    files: &mut O,
    out: &mut W,
    err: &mut E,
) -> Ending
    ensures { (ran : Result ⊤ FontRunFault) × DoesFont name.now (O.bytes files.old)
        (O.asked files.old) (O.asked files.new) (W.contents out.old) (W.contents out.new)
        (PrintsFont face (W.contents out.old) (W.contents out.new)) ran
        × (result.fault ≡ cause_of ran) × Reports result.is_reported (E.contents err.old) (E.contents err.new)
        (line_of name.now ran) }
{
    end_of(name, print_file(alloc, name, face, files, out), err)
}

/// How a result ends the program; `font` is the name of the font file.
fn end_of<E: Write>(font: &str, ran: Result<(), FontRunFault>, err: &mut E) -> Ending
    ensures fault { result.fault ≡ cause_of ran }
    ensures reported { Reports result.is_reported (E.contents err.old) (E.contents err.new) (line_of font.now ran) }
{
    match ran {
        Ok(()) => Ending {
            fault: None,
            is_reported: true,
        },
        Err(fault) => end(font, fault, err),
    }
}

/// Writes a text of the program's own to `out`.
fn say<W: Write, E: Write>(text: &str, out: &mut W, err: &mut E) -> Ending
    ensures said { IsSaying text.now (W.contents out.old) (W.contents out.new) result.fault }
    ensures reported { Reports result.is_reported (E.contents err.old) (E.contents err.new)
        (line_of [] (result_of result.fault)) }
{
    match write_lines(out, text.as_bytes()) {
        Ok(()) => end_of("", Ok(()), err),
        Err(cause) => end_of("", Err(fault_of_run(cause)), err),
    }
}
