//! Runs the program over open streams.

ghost use Rattle.std.specs.Prelude.{◌≡◌, ◌≢◌, ◌⊎◌, ◌≤◌, ◌^◌, Ok, Err, Some, None, false, length, string_bytes, IfOk, IfErr, OnOk, OnErr, IfSome};
ghost use Rattle.std.specs.Io.KnownBytes.{Appends, IsAtEnd, Keeps};
ghost use Rattle.shell_run.specs.Answer.{IsAnswer, answer_in};
ghost use Rattle.shell_run.specs.Lines.{printed_answer, refusal};
ghost use Rattle.shell_readers.specs.Faults.{IsOfBytes, IsOfRun};
ghost use Rattle.shell_readers.specs.Input.{input_value};
ghost use Rattle.shell_run.specs.Run.{AppendsFront, OfAnswer, OnKnown, SomeBytes, keeps_going, may_have_written};

use crate::answer::lines_in;
use crate::lines::{print_text_lines, write_text_lines};
use crate::read::read_all;
use crate::write::write_lines;
use shell_readers::fault::RunFault;
use shell_readers::input::{RunInput, read_input};
use shell_readers::options::Options;
use std::alloc::Global;
use std::io::{Read, Write};

/// The printed lines of a text, or of each of its lines; the first line that is refused is the fault.
#[tactic(auto, using(crate::proofs::Runs::lines_printed, crate::proofs::Runs::line_refuses))]
fn print(
    alloc: Global,
    options: &Options,
    input: &RunInput,
    text: &[u8],
) -> Result<String, RunFault>
    requires { keeps_going options.now ≡ false }
    ensures ok { IfOk result (λ printed. answer_in options.now (input_value input.now) text.now ≡ printed_answer (string_bytes printed)) }
    ensures refused { IfErr result (λ e. e ≢ RunFault.OutOfMemory
        → answer_in options.now (input_value input.now) text.now ≡ refusal e) }
    ensures kind { IfErr result IsOfRun }
{
    if options.lines {
        print_text_lines(alloc, options, input, text)
    } else {
        let mut plan = None;
        lines_in(alloc, options, input, &mut plan, text)
    }
}

/// Writes what a text gives, after tables and a font were read: at once, or in parts where refused lines are named.
#[tactic(auto, using(crate::proofs::Runs::lines_named))]
pub fn write_answer<W: Write>(
    alloc: Global,
    options: &Options,
    input: &RunInput,
    text: &[u8],
    out: &mut W,
) -> Result<(), RunFault>
    ensures written { OnOk result (SomeBytes (λ answer. answer_in options.now (input_value input.now) text.now ≡ answer) None
        (Appends (W.contents out.old) (W.contents out.new))) }
    ensures refused { IfErr result (λ e. IsOfBytes e
        → SomeBytes (λ answer. answer_in options.now (input_value input.now) text.now ≡ answer) (Some e)
        (Appends (W.contents out.old) (W.contents out.new))) }
    ensures front { OnErr result (AppendsFront (W.contents out.old) (W.contents out.new)
        (answer_in options.now (input_value input.now) text.now).written) }
    ensures kept { IfErr result (λ e. may_have_written options.now e ≡ false
        → Keeps (W.contents out.old) (W.contents out.new)) }
    ensures kind { IfErr result (λ e. (e ≡ RunFault.Write) ⊎ IsOfRun e) }
{
    if options.lines && options.keep_going {
        return write_text_lines(alloc, options, input, text, out);
    }
    let printed = print(alloc, options, input, text)?;
    write_lines(out, printed.as_bytes())
}

/// Reads tables, a font and a text to their ends, and writes only the printed lines of the text, or of each of its lines: at
/// once at the end, or in parts where lines that are refused are named.
pub fn run<T: Read, F: Read, X: Read, W: Write>(
    alloc: Global,
    options: Options,
    tables: &mut T,
    font: &mut F,
    text: &mut X,
    out: &mut W,
) -> Result<(), RunFault>
    // Where the readers' bytes are known, the answer's bytes are written and the readers are at their ends.
    ensures written { OnOk result
        (OnKnown (T.remaining tables.old) (F.remaining font.old) (X.remaining text.old)
        (λ ts fs xs. SomeBytes (IsAnswer options ts fs xs) None
        (Appends (W.contents out.old) (W.contents out.new)))) }
    ensures tables_ended { OnOk result (IfSome (T.remaining tables.old) (λ _. IsAtEnd (T.remaining tables.new))) }
    ensures font_ended { OnOk result (IfSome (F.remaining font.old) (λ _. IsAtEnd (F.remaining font.new))) }
    ensures text_ended { OnOk result (IfSome (X.remaining text.old) (λ _. IsAtEnd (X.remaining text.new))) }

    // A fault of the bytes is the first one in them; the bytes of the answer with it are written, and all readers are at their
    // ends.
    ensures refused { IfErr result (λ e. IsOfBytes e
        → OnKnown (T.remaining tables.old) (F.remaining font.old) (X.remaining text.old)
        (λ ts fs xs. SomeBytes (IsAnswer options ts fs xs) (Some e)
        (Appends (W.contents out.old) (W.contents out.new)))) }
    ensures refused_tables { IfErr result (λ e. IsOfBytes e
        → IfSome (T.remaining tables.old) (λ _. IsAtEnd (T.remaining tables.new))) }
    ensures refused_font { IfErr result (λ e. IsOfBytes e
        → IfSome (F.remaining font.old) (λ _. IsAtEnd (F.remaining font.new))) }
    ensures refused_text { IfErr result (λ e. IsOfBytes e
        → IfSome (X.remaining text.old) (λ _. IsAtEnd (X.remaining text.new))) }

    // Where writing fails, a prefix of the answer's bytes was written; for want of memory nothing, or a prefix.
    ensures write_last { result ≡ Err RunFault.Write
        → OnKnown (T.remaining tables.old) (F.remaining font.old) (X.remaining text.old)
        (λ ts fs xs. OfAnswer (IsAnswer options ts fs xs)
        (AppendsFront (W.contents out.old) (W.contents out.new))) }
    ensures no_memory { result ≡ Err RunFault.OutOfMemory → Keeps (W.contents out.old) (W.contents out.new)
        ⊎ OnKnown (T.remaining tables.old) (F.remaining font.old) (X.remaining text.old)
        (λ ts fs xs. OfAnswer (IsAnswer options ts fs xs)
        (AppendsFront (W.contents out.old) (W.contents out.new))) }
    ensures read_limit { result ≡ Err RunFault.ReadLimit
        → IfSome (T.remaining tables.old) (λ bs. 2 ^ 26 ≤ length bs)
        ⊎ IfSome (F.remaining font.old) (λ bs. 2 ^ 26 ≤ length bs)
        ⊎ IfSome (X.remaining text.old) (λ bs. 2 ^ 26 ≤ length bs) }
    ensures not_words { result ≢ Err RunFault.Words }

    // Before other faults nothing is written; without `keep_going` nothing is written before any but one of writing.
    ensures kept { IfErr result (λ e. may_have_written options e ≡ false
        → Keeps (W.contents out.old) (W.contents out.new)) }
{
    let tables = read_all(alloc, tables)?;
    let font = read_all(alloc, font)?;
    let text = read_all(alloc, text)?;
    let input = read_input(alloc, &tables, &font)?;
    // Their bytes are no longer needed, and a long text's glyphs need the memory.
    drop(tables);
    drop(font);
    let written = write_answer(alloc, &options, &input, &text, out);
    // In one step: left to the end, each list of the tables and the font is a step of this function's proof.
    drop(input);
    written
}
