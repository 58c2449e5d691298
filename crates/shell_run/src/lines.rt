//! The lines of a text, each a text of its own.
ghost use Rattle.std.specs.Prelude.{◌≡◌, ◌≢◌, ◌⊎◌, ◌++◌, ◌==◌, ◌<◌, ◌∷◌, [], ℕ, List, length, Some, None, IfOk, IfErr, IfSome, OnOk, OnErr, MatchOption, position, string_bytes};
ghost use Rattle.std.specs.List.{flat_map};
ghost use Rattle.std.specs.Io.KnownBytes.{Appends};
ghost use Rattle.std.specs.Option.{option_map};
ghost use Rattle.buffer_glyphs.specs.Parts.{or};
ghost use Rattle.shell_run.specs.Answer.{line_answers, lines_in};
ghost use Rattle.shell_run.specs.Lines.{IsOfLine, IsOfText, fault_of, first_fault, in_line, printed_or_named, text_lines};
ghost use Rattle.shell_readers.specs.Input.{input_value};
ghost use Rattle.shell_run.specs.Plans.{HasRunPlan};
ghost use Rattle.shell_run.specs.Run.{AppendsFront};
ghost use Rattle.shell_readers.specs.Faults.{IsOfBytes, IsOfRun};
ghost use Rattle.shell_readers.specs.Tables.{tables_value};

use crate::answer::lines_in;
use crate::write::write_lines;
use shape_pipeline::ShapePlan;
use shell_readers::fault::{LineFault, RunFault};
use shell_readers::input::RunInput;
use shell_readers::options::Options;
use std::alloc::{AllocError, Global};
use std::io::Write;

/// The bytes of printed lines that are written at once, where refused lines are named.
const PART: usize = 1 << 16;

/// The index of the first line feed.
fn line_feed(text: &[u8]) -> Option<usize>
    ensures { result ≡ position (λ byte. byte == 10) text.now }
{
    text.iter().position(|byte| *byte == b'\n')
}

/// The first line of a text and the bytes after its line feed; `None` where the text is empty.
#[tactic(auto, using(crate::proofs::TextLines::line_before_line_feed, crate::proofs::TextLines::line_without_line_feed))]
fn next_line(text: &[u8]) -> Option<(&[u8], &[u8])>
    ensures line { MatchOption result (text_lines text.now ≡ []) (λ cut.
        text_lines text.now ≡ cut.0.now ∷ text_lines cut.1.now) }
    ensures shorter { IfSome result (λ cut. length cut.1.now < length text.now) }
{
    if text.is_empty() {
        return None;
    }
    match line_feed(text) {
        Some(end) => Some((&text[..end], &text[end + 1..])),
        None => Some((text, &text[text.len()..])),
    }
}

/// A text's fault as that of a line.
#[tactic(auto, using(crate::proofs::LineWriting::line_of_run))]
fn in_line(number: usize, fault: RunFault) -> RunFault
    ensures fault { result ≡ in_line number fault }
    ensures kind { (fault ≢ RunFault.OutOfMemory → IsOfText fault) → IsOfRun result }
{
    match fault {
        RunFault::NotUtf8 => RunFault::Line(number, LineFault::NotUtf8),
        RunFault::Shape(cause) => RunFault::Line(number, LineFault::Shape(cause)),
        fault => fault,
    }
}

/// The printed lines of all lines of a text; the first line that is refused is the fault.
pub(crate) fn print_text_lines(
    alloc: Global,
    options: &Options,
    input: &RunInput,
    text: &[u8],
) -> Result<String, RunFault>
    ensures printed { IfOk result (λ printed.
        flat_map printed_or_named (line_answers options.now (input_value input.now) text.now) ≡ string_bytes printed) }
    ensures faultless { OnOk result (first_fault 1 (line_answers options.now (input_value input.now) text.now) ≡ None) }
    ensures refused { IfErr result (λ e. e ≢ RunFault.OutOfMemory
        → first_fault 1 (line_answers options.now (input_value input.now) text.now) ≡ Some e) }
    ensures kind { IfErr result IsOfRun }
{
    let mut printed = String::new(alloc);
    let mut plan = None;
    let mut number: usize = 0;
    let mut rest = text;
    'lines: while let Some((line, after)) = next_line(rest) {
        number += 1;
        match lines_in(alloc, options, input, &mut plan, line) {
            Ok(lines) => printed.push_str(&lines)?,
            Err(fault) => return Err(in_line(number, fault)),
        }
        rest = after;
    }
    Ok(printed)
}

/// Appends the printed lines of a line, or where it is refused `! ` and the name of its fault, which is returned.
fn push_line(
    alloc: Global,
    options: &Options,
    input: &RunInput,
    plan: &mut Option<ShapePlan>,
    part: &mut String,
    line: &[u8],
) -> Result<Option<RunFault>, AllocError>
    requires { HasRunPlan options.now input.now plan.old }
    ensures kept { HasRunPlan options.now input.now plan.new }
    ensures pushed { OnOk result (string_bytes part.new ≡ string_bytes part.old
        ++ printed_or_named (lines_in options.now (tables_value input.now.tables) input.now.face line.now)) }
    ensures fault { IfOk result (λ fault.
        fault ≡ fault_of (lines_in options.now (tables_value input.now.tables) input.now.face line.now)) }
    ensures kind { IfOk result (λ fault. IfSome fault IsOfText) }
{
    match lines_in(alloc, options, input, plan, line) {
        Ok(lines) => {
            part.push_str(&lines)?;
            Ok(None)
        }
        Err(RunFault::OutOfMemory) => Err(AllocError),
        Err(fault) => {
            let name = fault.name();
            write!(part, "! {name}\n")?;
            Ok(Some(fault))
        }
    }
}

/// The first fault: the one before, else that of a line.
fn first_fault(first: Option<RunFault>, number: usize, fault: Option<RunFault>) -> Option<RunFault>
    ensures { result ≡ or first (option_map (in_line number) fault) }
{
    match (first, fault) {
        (Some(first), _) => Some(first),
        (None, Some(fault)) => Some(in_line(number, fault)),
        (None, None) => None,
    }
}

/// Writes a part that is long enough, which is empty then.
fn write_part<W: Write>(out: &mut W, part: &mut String) -> Result<(), RunFault>
    ensures written { OnOk result ((done : List ℕ) × Appends (W.contents out.old) (W.contents out.new) done
        × (string_bytes part.old ≡ done ++ string_bytes part.new)) }
    ensures front { OnErr result (AppendsFront (W.contents out.old) (W.contents out.new) (string_bytes part.old)) }
    ensures fault { IfErr result (λ e. e ≡ RunFault.Write) }
{
    if part.len() < PART {
        return Ok(());
    }
    write_lines(out, part.as_bytes())?;
    part.clear();
    Ok(())
}

/// Writes the printed lines of all lines of a text, in parts; for a line that is refused it writes `! ` and the name of its
/// fault. The first of these faults is returned after all lines.
pub(crate) fn write_text_lines<W: Write>(
    alloc: Global,
    options: &Options,
    input: &RunInput,
    text: &[u8],
    out: &mut W,
) -> Result<(), RunFault>
    ensures faultless { OnOk result (first_fault 1 (line_answers options.now (input_value input.now) text.now) ≡ None) }
    ensures written { OnOk result (Appends (W.contents out.old) (W.contents out.new)
        (flat_map printed_or_named (line_answers options.now (input_value input.now) text.now))) }
    ensures refused { IfErr result (λ e. IsOfBytes e
        → first_fault 1 (line_answers options.now (input_value input.now) text.now) ≡ Some e) }
    ensures named { IfErr result (λ e. IsOfBytes e → Appends (W.contents out.old) (W.contents out.new)
        (flat_map printed_or_named (line_answers options.now (input_value input.now) text.now))) }
    ensures front { OnErr result (AppendsFront (W.contents out.old) (W.contents out.new)
        (flat_map printed_or_named (line_answers options.now (input_value input.now) text.now))) }
    ensures kind { IfErr result (λ e. (e ≡ RunFault.Write) ⊎ (e ≡ RunFault.OutOfMemory) ⊎ IsOfLine e) }
{
    let mut part = String::new(alloc);
    let mut plan = None;
    let mut first = None;
    let mut number: usize = 0;
    let mut rest = text;
    'lines: while let Some((line, after)) = next_line(rest) {
        number += 1;
        let fault = push_line(alloc, options, input, &mut plan, &mut part, line)?;
        first = first_fault(first, number, fault);
        rest = after;
        write_part(out, &mut part)?;
    }
    write_lines(out, part.as_bytes())?;
    match first {
        None => Ok(()),
        Some(fault) => Err(fault),
    }
}
