//! From the bytes of a text to its printed lines.
ghost use Rattle.std.specs.Prelude.{◌≡◌, ◌≢◌, Ok, Err, IfOk, IfErr, OnOk, ◌++◌, true, false, string_bytes};
ghost use Rattle.buffer_glyphs.specs.Items.{clusters};
ghost use Rattle.buffer_core.specs.Sides.{all_glyphs, empty_buffer, with_added};
ghost use Rattle.buffer_core.specs.Text.{added_text, fits_text};
ghost use Rattle.shell_run.specs.Answer.{lines_in, lines_of, printed_line, text_of, without_line_feed};
ghost use Rattle.shell_run.specs.Slices.{requested_lines};
ghost use Rattle.shell_run.specs.Lines.{IsOfText};
ghost use Rattle.shell_readers.specs.Tables.{tables_value};
ghost use Rattle.shell_run.specs.Asked.{plain_buffer};
ghost use Rattle.shell_run.specs.Plans.{HasRunPlan};

use crate::shape::shape;
use crate::slices::push_requested;
use buffer_glyphs::cause::ShapeCause;
use buffer_glyphs::flags::SerializeFlags;
use buffer_wrappers::glyphs::GlyphBuffer;
use buffer_wrappers::unicode_buffer::UnicodeBuffer;
use layout_face::Face;
use shape_pipeline::ShapePlan;
use shell_readers::fault::RunFault;
use shell_readers::input::RunInput;
use shell_readers::options::Options;
use shell_readers::values::utf8;
use std::alloc::{AllocError, Global};

fn without_line_feed(text: &str) -> &str
    ensures { result.now ≡ without_line_feed text.now }
{
    match text.as_bytes() {
        [.., b'\n'] => &text[..text.len() - 1],
        _ => text,
    }
}

fn read_text(bytes: &[u8]) -> Result<&str, RunFault>
    ensures ok { IfOk result (λ s. text_of bytes.now ≡ Ok s.now) }
    ensures refused { IfErr result (λ e. text_of bytes.now ≡ Err e) }
    ensures kind { IfErr result (λ e. e ≢ RunFault.OutOfMemory → IsOfText e) }
{
    match utf8(bytes) {
        Some(text) => Ok(without_line_feed(text)),
        None => Err(RunFault::NotUtf8),
    }
}

/// An empty buffer with the settings of the options but the language, which the plan has.
fn new_text(alloc: Global, options: &Options) -> UnicodeBuffer
    ensures { result ≡ plain_buffer options.now }
{
    let mut text = UnicodeBuffer::new(alloc);
    text.set_cluster_level(options.cluster_level);
    text.set_flags(options.buffer_flags);
    text.set_direction(options.direction);
    if let Some(script) = options.script {
        text.set_script(script);
    }
    text
}

/// A buffer with the characters of a text, and the settings of the options but the language.
fn text_buffer(alloc: Global, options: &Options, text: &str) -> Result<UnicodeBuffer, RunFault>
    ensures fits { OnOk result (fits_text text.now empty_buffer ≡ true) }
    ensures text { IfOk result (λ b. b ≡ with_added (added_text text.now) (plain_buffer options.now)) }
    ensures refused { IfErr result (λ e. e ≢ RunFault.OutOfMemory
        → (e ≡ RunFault.Shape ShapeCause.TooLong) × (fits_text text.now empty_buffer ≡ false)) }
    ensures kind { IfErr result (λ e. e ≢ RunFault.OutOfMemory → IsOfText e) }
{
    let mut buffer = new_text(alloc, options);
    if !buffer.push_str(text)? {
        return Err(RunFault::Shape(ShapeCause::TooLong));
    }
    Ok(buffer)
}

/// The printed text of glyphs, with the font's names and extents, and a line feed.
fn print_glyphs(
    alloc: Global,
    face: &Face,
    flags: SerializeFlags,
    glyphs: &GlyphBuffer,
) -> Result<String, AllocError>
    ensures { IfOk result (λ line.
        string_bytes line ≡ printed_line face.now flags (all_glyphs glyphs.now) glyphs.now.positions) }
{
    let mut line = glyphs.serialize(alloc, face, flags)?;
    line.push_str("\n")?;
    Ok(line)
}

/// The line of glyphs, and after it, where they are requested, the lines of the slices of their text.
fn print(
    alloc: Global,
    face: &Face,
    flags: SerializeFlags,
    slices: bool,
    glyphs: &GlyphBuffer,
    text: &str,
) -> Result<String, AllocError>
    ensures { IfOk result (λ lines.
        string_bytes lines ≡ printed_line face.now flags (all_glyphs glyphs.now) glyphs.now.positions
        ++ requested_lines slices (clusters (all_glyphs glyphs.now)) text.now) }
{
    let mut lines = print_glyphs(alloc, face, flags, glyphs)?;
    push_requested(alloc, &mut lines, slices, glyphs, text)?;
    Ok(lines)
}

/// The printed lines of a text in a font.
fn lines(
    alloc: Global,
    options: &Options,
    input: &RunInput,
    plan: &mut Option<ShapePlan>,
    text: &str,
) -> Result<String, RunFault>
    requires { HasRunPlan options.now input.now plan.old }
    ensures kept { HasRunPlan options.now input.now plan.new }
    ensures ok { IfOk result (λ lines.
        lines_of options.now (tables_value input.now.tables) input.now.face text.now ≡ Ok (string_bytes lines)) }
    ensures refused { IfErr result (λ e. e ≢ RunFault.OutOfMemory
        → lines_of options.now (tables_value input.now.tables) input.now.face text.now ≡ Err e) }
    ensures kind { IfErr result (λ e. e ≢ RunFault.OutOfMemory → IsOfText e) }
{
    let buffer = text_buffer(alloc, options, text)?;
    let mut glyphs = shape(alloc, options, input, plan, buffer)?;
    // Where many characters became one glyph the lists are too large, and a long line needs the memory.
    glyphs.shrink_to_fit();
    let lines = print(
        alloc,
        &input.face,
        options.flags,
        options.slices,
        &glyphs,
        text,
    )?;
    Ok(lines)
}

/// The printed lines of the bytes of a text.
#[tactic(auto, unfolding(crate::specs::Answer::lines_in))]
pub(crate) fn lines_in(
    alloc: Global,
    options: &Options,
    input: &RunInput,
    plan: &mut Option<ShapePlan>,
    bytes: &[u8],
) -> Result<String, RunFault>
    requires { HasRunPlan options.now input.now plan.old }
    ensures kept { HasRunPlan options.now input.now plan.new }
    ensures ok { IfOk result (λ lines.
        lines_in options.now (tables_value input.now.tables) input.now.face bytes.now ≡ Ok (string_bytes lines)) }
    ensures refused { IfErr result (λ e. e ≢ RunFault.OutOfMemory
        → lines_in options.now (tables_value input.now.tables) input.now.face bytes.now ≡ Err e) }
    ensures kind { IfErr result (λ e. e ≢ RunFault.OutOfMemory → IsOfText e) }
{
    let text = read_text(bytes)?;
    lines(alloc, options, input, plan, text)
}
