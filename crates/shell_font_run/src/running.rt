//! Shapes the bytes of a text in a font file, and writes the printed lines; or prints a font.
ghost use Rattle.std.specs.Prelude.{◌≡◌, ◌≢◌, ◌⊎◌, Some, None, false, IfOk, IfErr, OnOk, OnErr};
ghost use Rattle.std.specs.Io.KnownBytes.{Appends, Keeps};
ghost use Rattle.shell_readers.specs.Faults.{IsOfBytes, IsOfRun};
ghost use Rattle.shell_run.specs.Lines.{printed_answer, refusal};
ghost use Rattle.shell_run.specs.Run.{AppendsFront, OfAnswer, SomeBytes, may_have_written};
ghost use Rattle.shell_font_run.specs.Program.{is_of_writing};
ghost use Rattle.shell_font_run.specs.Run.{IsFontAnswer, font_answer, parts_of};

use bitflags::Flags;
use buffer_glyphs::flags::SerializeFlags;
use font_file::FontParts;
use shell_face_print::print_face;
use shell_fonts::{read_font_input, read_font_of};
use shell_readers::fault::RunFault;
use shell_readers::options::Options;
use shell_run::{write_answer, write_lines};
use std::alloc::Global;
use std::io::Write;

/// The parts of a font that a run reads: all, without the names of glyphs where they aren't printed. Marks may be
/// positioned by boxes, so these are always read.
fn parts_of(flags: SerializeFlags) -> FontParts
    ensures { result ≡ parts_of flags }
{
    FontParts {
        extents: true,
        names: !flags.contains(SerializeFlags::NO_GLYPH_NAMES),
    }
}

/// Shapes the bytes of a text in the font with an index of a font file, over the tables that the library has, and writes
/// the printed lines of the text, or of each of its lines: at once at the end, or in parts where lines that are refused
/// are named.
#[tactic(auto, using(crate::proofs::FontRuns::was_refused))]
pub fn run_font<W: Write>(
    alloc: Global,
    options: &Options,
    face: usize,
    font: &[u8],
    text: &[u8],
    out: &mut W,
) -> Result<(), RunFault>
    // The bytes of the answer are written.
    ensures written { OnOk result (SomeBytes (IsFontAnswer options.now face font.now text.now) None
        (Appends (W.contents out.old) (W.contents out.new))) }

    // A fault of the bytes is the first one in them; the bytes of the answer with it are written.
    ensures refused { IfErr result (λ e. IsOfBytes e → SomeBytes (IsFontAnswer options.now face font.now text.now) (Some e)
        (Appends (W.contents out.old) (W.contents out.new))) }

    // Where writing fails, or memory is short, nothing is written, or a prefix of the answer's bytes.
    ensures front { OnErr result (Keeps (W.contents out.old) (W.contents out.new)
        ⊎ OfAnswer (IsFontAnswer options.now face font.now text.now) (AppendsFront (W.contents out.old) (W.contents out.new))) }

    // Before other faults nothing is written; without `keep_going` nothing is written before any but one of writing.
    ensures kept { IfErr result (λ e. may_have_written options.now e ≡ false
        → Keeps (W.contents out.old) (W.contents out.new)) }
    ensures kind { IfErr result (λ e. (e ≡ RunFault.Write) ⊎ IsOfRun e) }
{
    let input = read_font_input(alloc, font, face, parts_of(options.flags))?;
    let written = write_answer(alloc, options, &input, text, out);
    // In one step: left to the end, each list of the tables and the font is a step of this function's proof.
    drop(input);
    written
}

/// The JSON of the font with an index of a font file, and a line feed.
fn font_line(alloc: Global, face: usize, font: &[u8]) -> Result<Vec<u8>, RunFault>
    ensures ok { IfOk result (λ line. font_answer face font.now ≡ printed_answer line.items) }
    ensures refused { IfErr result (λ e. e ≢ RunFault.OutOfMemory → font_answer face font.now ≡ refusal e) }
    ensures kind { IfErr result IsOfRun }
{
    let read = read_font_of(alloc, font, face, FontParts::all())?;
    let printed = print_face(alloc, &read);
    // In one step: left to the end, each list of the font is a step of this function's proof.
    drop(read);
    let mut line = printed?;
    line.push(b'\n')?;
    Ok(line)
}

/// Writes the JSON of the font with an index of a font file, and a line feed, to `out`.
pub fn print_font<W: Write>(
    alloc: Global,
    face: usize,
    font: &[u8],
    out: &mut W,
) -> Result<(), RunFault>
    // The bytes of the answer are written.
    ensures written { OnOk result (SomeBytes (λ answer. answer ≡ font_answer face font.now) None
        (Appends (W.contents out.old) (W.contents out.new))) }

    // A fault of the font; the bytes of the answer with it, which are none, are written.
    ensures refused { IfErr result (λ e. IsOfBytes e → SomeBytes (λ answer. answer ≡ font_answer face font.now) (Some e)
        (Appends (W.contents out.old) (W.contents out.new))) }

    // Where writing fails, or memory is short, nothing is written, or a prefix of the answer's bytes.
    ensures front { OnErr result (Keeps (W.contents out.old) (W.contents out.new)
        ⊎ OfAnswer (λ answer. answer ≡ font_answer face font.now) (AppendsFront (W.contents out.old) (W.contents out.new))) }

    // Before other faults than one of writing nothing is written.
    ensures kept { IfErr result (λ e. is_of_writing e ≡ false → Keeps (W.contents out.old) (W.contents out.new)) }
    ensures kind { IfErr result (λ e. (e ≡ RunFault.Write) ⊎ IsOfRun e) }
{
    let line = font_line(alloc, face, font)?;
    write_lines(out, &line)
}
