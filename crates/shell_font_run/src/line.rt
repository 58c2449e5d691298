//! Reads a font file, and shapes the text of a command line in it, or prints a font of it.
ghost use Rattle.std.specs.Prelude.{◌≡◌, ℕ, ◌∷◌, [], Bool, List, Option, IfErr, IfOk, IfSome, OnOk, is_some, true, string_bytes};
ghost use Rattle.shell_readers.specs.declared.fault.RunFault.{RunFault};
ghost use Rattle.shell_run.specs.Program.{Asks, HasBytes, Opening, Source};
ghost use Rattle.shell_run.specs.Program.Source.{File as FileSource};
ghost use Rattle.shell_font_run.specs.declared.fault.FontRunFault.{FontRunFault};
ghost use Rattle.shell_font_run.specs.Program.{AreBytes, DoesFont, FailsToRead, IsFontRun, PrintsFont, RunsText, result_of};

use crate::fault::{FaultSubject, FontRunFault, fault_of_run};
use crate::running::{print_font, run_font};
use shell_readers::fault::RunFault;
use shell_run::files::Files;
use shell_run::read_all;
use shell_words::FontLine;
use std::alloc::Global;
use std::io::{Read, Write};

/// The bytes of an open source, or why it can't be read.
#[tactic(auto, using(crate::proofs::Reading::are_bytes, crate::proofs::Reading::fails))]
fn read_opened<F: Read + Drop>(alloc: Global, opened: Option<F>) -> Result<Vec<u8>, RunFault>
    ensures bytes { (known : Option (List ℕ)) → IfSome opened (λ file. HasBytes known (F.remaining file))
        → IfOk result (λ v. AreBytes known v.items) }
    ensures refused { (known : Option (List ℕ)) → IfSome opened (λ file. HasBytes known (F.remaining file))
        → IfErr result (FailsToRead known) }
    ensures opened { OnOk result (is_some opened ≡ true) }
{
    match opened {
        Some(mut file) => read_all(alloc, &mut file),
        None => Err(RunFault::Read),
    }
}

/// The bytes of a font file by its name.
fn read_font_file<F: Read + Drop, O: Files<F>>(
    alloc: Global,
    files: &mut O,
    name: &str,
) -> Result<Vec<u8>, FontRunFault>
    ensures asks { OnOk result (Asks (O.asked files.old) (O.asked files.new) ((FileSource name.now, true) ∷ [])) }
    ensures bytes { IfOk result (λ v. AreBytes (O.bytes files.old (FileSource name.now)) v.items) }
    ensures refused { IfErr result (λ e. (opened : Bool)
        × Asks (O.asked files.old) (O.asked files.new) ((FileSource name.now, opened) ∷ [])
        × (e.subject ≡ FaultSubject.Font) × FailsToRead (O.bytes files.old (FileSource name.now)) e.cause) }
    ensures stays { (source : Source) → O.bytes files.new source ≡ O.bytes files.old source }
{
    let file = files.open(name);
    match read_opened(alloc, file) {
        Ok(font) => Ok(font),
        Err(cause) => Err(FontRunFault {
            cause,
            subject: FaultSubject::Font,
        }),
    }
}

/// Prints the font with an index of a font file by its name, and writes it to `out`.
pub(crate) fn print_file<F: Read + Drop, O: Files<F>, W: Write>(
    alloc: Global,
    name: &str,
    face: usize,
    files: &mut O,
    out: &mut W,
) -> Result<(), FontRunFault>
    ensures { DoesFont name.now (O.bytes files.old) (O.asked files.old) (O.asked files.new) (W.contents out.old)
        (W.contents out.new) (PrintsFont face (W.contents out.old) (W.contents out.new)) result }
{
    let font = read_font_file(alloc, files, name)?;
    match print_font(alloc, face, &font, out) {
        Ok(()) => Ok(()),
        Err(cause) => Err(fault_of_run(cause)),
    }
}

/// Shapes the text of a command line in its font file, and writes the lines to `out`.
pub(crate) fn run_line<F: Read + Drop, O: Files<F>, W: Write>(
    alloc: Global,
    line: &FontLine,
    files: &mut O,
    out: &mut W,
) -> Result<(), FontRunFault>
    ensures { DoesFont (string_bytes line.now.font) (O.bytes files.old) (O.asked files.old) (O.asked files.new)
        (W.contents out.old) (W.contents out.new)
        (RunsText line.now (O.bytes files.old) (W.contents out.old) (W.contents out.new)) result }
{
    let font = read_font_file(alloc, files, &line.font)?;
    run_text(alloc, line, &font, files, out)
}

/// Shapes the text of a command line, or standard input where it has none, in the bytes of a font file.
fn run_text<F: Read + Drop, O: Files<F>, W: Write>(
    alloc: Global,
    line: &FontLine,
    font: &[u8],
    files: &mut O,
    out: &mut W,
) -> Result<(), FontRunFault>
    ensures { (openings : List Opening) × Asks (O.asked files.old) (O.asked files.new) openings
        × RunsText line.now (O.bytes files.old) (W.contents out.old) (W.contents out.new) font.now openings result }
{
    match &line.text {
        Some(text) => run_on(alloc, line, font, text.as_bytes(), out),
        None => run_input(alloc, line, font, files, out),
    }
}

/// Shapes standard input in the bytes of a font file.
fn run_input<F: Read + Drop, O: Files<F>, W: Write>(
    alloc: Global,
    line: &FontLine,
    font: &[u8],
    files: &mut O,
    out: &mut W,
) -> Result<(), FontRunFault>
    requires { line.now.text ≡ None }
    ensures { (openings : List Opening) × Asks (O.asked files.old) (O.asked files.new) openings
        × RunsText line.now (O.bytes files.old) (W.contents out.old) (W.contents out.new) font.now openings result }
{
    let input = files.input();
    match read_opened(alloc, input) {
        Ok(text) => run_on(alloc, line, font, &text, out),
        Err(cause) => Err(FontRunFault {
            cause,
            subject: FaultSubject::Text,
        }),
    }
}

/// Shapes the bytes of a text in the bytes of a font file by the options of a command line.
fn run_on<W: Write>(
    alloc: Global,
    line: &FontLine,
    font: &[u8],
    text: &[u8],
    out: &mut W,
) -> Result<(), FontRunFault>
    ensures { (end : Option RunFault) × (result ≡ result_of end)
        × IsFontRun line.now font.now text.now (W.contents out.old) (W.contents out.new) end }
{
    match run_font(alloc, &line.options, line.face, font, text, out) {
        Ok(()) => Ok(()),
        Err(cause) => Err(fault_of_run(cause)),
    }
}
