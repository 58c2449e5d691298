//! paragraph_example FONT TEXT WIDTH: sets a paragraph in lines of a width in font units, over the crates `kuspveli` and
//! `line_pieces` alone; FONT is a font file. The paragraph is shaped once; a line that may not have its glyphs is shaped
//! again, and cut by the width that it has then. All lines are printed at once, at the end. Where something is wrong none
//! is: a line on standard error says what, and of which word.
#![tactic(auto)]

use kuspveli::{
    BufferFlags, Direction, Face, FontFault, FontParts, GlyphBuffer, GlyphInfo, GlyphPosition,
    LanguageTable, RunFault, Script, ShapeCause, SyllableTable, TextTables, UnicodeBuffer,
    default_tables, hb_shape_data_t, read_font, shape,
};
use line_pieces::{FillFault, FilledLine, LineFault, LineGlyphs, ShapesLines, fill_lines};
use std::alloc::{AllocError, Global};
use std::process::ExitCode;
use std::{env, fs, io};
use thiserror::Error;

/// Why no lines are printed.
#[derive(Clone, Copy, Debug, Error)]
enum Fault<'a> {
    #[error("expected FONT TEXT WIDTH")]
    Words,
    /// The word that is wrong, or that names the file.
    #[error("{0:?}: {1}")]
    Word(&'a str, WordFault),
    #[error("standard output: {0}")]
    Write(io::Error),
}

/// What is wrong with a word, or with the file that it names.
#[derive(Clone, Copy, Debug, Error)]
enum WordFault {
    #[error("not a number of font units")]
    Width,
    #[error(transparent)]
    Read(#[from] io::Error),
    #[error(transparent)]
    Font(#[from] FontFault),
    #[error(transparent)]
    Tables(#[from] RunFault),
    #[error(transparent)]
    Shape(#[from] ShapeCause),
    #[error(transparent)]
    Cut(#[from] LineFault),
    #[error(transparent)]
    Memory(#[from(alloc)] AllocError),
}

/// What all texts are shaped with.
#[derive(Clone, Copy)]
struct Setup<'a> {
    alloc: Global,
    face: &'a Face,
    data: hb_shape_data_t<'a, SyllableTable, LanguageTable>,
}

/// A paragraph of one script, along one direction, and what it is shaped with.
#[derive(Clone, Copy)]
struct Paragraph<'a> {
    setup: Setup<'a>,
    text: &'a str,
    script: Option<Script>,
    direction: Direction,
}

impl ShapesLines for Paragraph<'_> {
    type Fault = WordFault;

    // nothing is proved here of what shaping a line gives
    ghost IsShapedLine = { λ paragraph from to glyphs. Unit {0} };

    ghost IsRefusedLine = { λ paragraph from to fault. Unit {0} };

    /// Shapes the text of a line, between the texts before and after it.
    fn shape_line(&self, start: usize, end: usize) -> Result<GlyphBuffer, WordFault> {
        let text = self.text.get(start..end).unwrap_or("");
        let mut buffer = text_buffer(self.setup.alloc, text)?;
        if let Some(script) = self.script {
            buffer.set_script(script);
        }
        buffer.set_direction(self.direction);
        buffer.set_pre_context(self.text.get(..start).unwrap_or(""));
        buffer.set_post_context(self.text.get(end..).unwrap_or(""));
        shape_buffer(self.setup, buffer)
    }
}

fn main(rt: HostRuntime) -> ExitCode {
    match words(&rt) {
        Ok(words) => end(&rt, print_lines(&rt, &words)),
        Err(_) => end(&rt, Err(Fault::Words)),
    }
}

/// The command-line words, which have to be UTF-8.
fn words(rt: &HostRuntime) -> io::Result<Vec<String>> {
    let words = env::args(rt)?.collect(rt.alloc())?;
    Ok(words)
}

/// The status, once the line of a fault is written to standard error; where that fails, the status alone shows it.
fn end(rt: &HostRuntime, done: Result<(), Fault<'_>>) -> ExitCode {
    let Err(fault) = done else {
        return ExitCode::SUCCESS;
    };
    let _ = eprintln!(rt; "paragraph_example: {fault}");
    ExitCode::FAILURE
}

/// Sets the paragraph in lines, and prints them.
fn print_lines<'a>(rt: &HostRuntime, words: &'a [String]) -> Result<(), Fault<'a>> {
    let lines = set_files(rt, words)?;
    match print!(rt; "{lines}") {
        Ok(()) => Ok(()),
        Err(error) => Err(Fault::Write(error)),
    }
}

/// Reads the files, and sets the paragraph in lines.
fn set_files<'a>(rt: &HostRuntime, words: &'a [String]) -> Result<String, Fault<'a>> {
    let [_, font, text, width] = words else {
        return Err(Fault::Words);
    };
    let units = width
        .parse()
        .map_err(|_| Fault::Word(width, WordFault::Width))?;
    let tables = unicode_tables(rt.alloc()).map_err(|fault| Fault::Word(text, fault))?;
    set_by_tables(rt, &tables, font, text, units)
}

/// Reads a font and a text, and sets the text in lines.
fn set_by_tables<'a>(
    rt: &HostRuntime,
    tables: &TextTables,
    font: &'a str,
    text: &'a str,
    width: i64,
) -> Result<String, Fault<'a>> {
    let face = read_face(rt, font).map_err(|fault| Fault::Word(font, fault))?;
    set_file(rt, tables, &face, text, width).map_err(|fault| Fault::Word(text, fault))
}

/// Reads the first font of a file into a box, since it is large.
fn read_face(rt: &HostRuntime, name: &str) -> Result<Box<Face>, WordFault> {
    let bytes = fs::read(rt, name)?;
    let face = read_font(rt.alloc(), &bytes, 0, FontParts::all())?;
    Ok(Box::new(rt.alloc(), face)?)
}

/// The tables of Unicode 15.0 in a box, since they are large.
fn unicode_tables(alloc: Global) -> Result<Box<TextTables>, WordFault> {
    let tables = default_tables(alloc)?;
    Ok(Box::new(alloc, tables)?)
}

/// Reads the text of a paragraph, and sets it in lines.
fn set_file(
    rt: &HostRuntime,
    tables: &TextTables,
    face: &Face,
    name: &str,
    width: i64,
) -> Result<String, WordFault> {
    let text = fs::read_to_string(rt, name)?;
    let setup = Setup {
        alloc: rt.alloc(),
        face,
        data: hb_shape_data_t {
            tables: &tables.characters,
            spans: &tables.syllables,
            languages: &tables.languages,
        },
    };
    set_text(setup, text.trim_end(), width)
}

/// Shapes a paragraph with safe breaks, and cuts it into lines.
fn set_text(setup: Setup<'_>, text: &str, width: i64) -> Result<String, WordFault> {
    let mut buffer = text_buffer(setup.alloc, text)?;
    buffer.set_flags(BufferFlags::PRODUCE_SAFE_BREAKS);
    let paragraph = Paragraph {
        setup,
        text,
        script: buffer.guessed_script(),
        direction: buffer.guessed_direction(),
    };
    let glyphs = shape_buffer(setup, buffer)?;
    set_lines(paragraph, &glyphs, width)
}

/// Fills the lines of a paragraph.
fn set_lines(
    paragraph: Paragraph<'_>,
    glyphs: &GlyphBuffer,
    width: i64,
) -> Result<String, WordFault> {
    let Paragraph {
        setup,
        text,
        direction,
        ..
    } = paragraph;
    let breaks = bytes_after_spaces(setup.alloc, text)?;
    let lines = fill_lines(
        setup.alloc,
        &paragraph,
        glyphs,
        text,
        direction,
        &breaks,
        width,
    );
    let lines = lines.map_err(fault_of)?;
    show_lines(paragraph, glyphs, &lines)
}

/// Why lines aren't filled, as the fault of a text.
fn fault_of(fault: FillFault<WordFault>) -> WordFault {
    match fault {
        FillFault::Cut(fault) => WordFault::Cut(fault),
        FillFault::Shape(fault) => fault,
        FillFault::TooManyGlyphs => WordFault::Cut(LineFault::TooManyGlyphs),
    }
}

/// Prints lines into a text.
fn show_lines(
    paragraph: Paragraph<'_>,
    glyphs: &GlyphBuffer,
    lines: &[FilledLine],
) -> Result<String, WordFault> {
    let mut shown = String::new(paragraph.setup.alloc);
    for line in lines {
        push_line(&mut shown, paragraph.text, glyphs, line)?;
    }
    Ok(shown)
}

/// The bytes at which a line may end: those after spaces. UAX 14 has more.
fn bytes_after_spaces(alloc: Global, text: &str) -> Result<Vec<usize>, AllocError> {
    let mut bytes = Vec::new(alloc);
    for (byte, character) in text.char_indices() {
        if character == ' ' {
            bytes.push(byte + 1)?;
        }
    }
    Ok(bytes)
}

/// Appends the text of a line, and its glyphs: those of the paragraph, or what shaping the text again gave.
fn push_line(
    shown: &mut String,
    text: &str,
    glyphs: &GlyphBuffer,
    line: &FilledLine,
) -> Result<(), WordFault> {
    let text = text.get(line.start..line.end).unwrap_or("");
    match &line.glyphs {
        LineGlyphs::Own(own) => {
            let infos = glyphs.glyph_infos().get(own.start..own.end);
            let positions = glyphs.glyph_positions().get(own.start..own.end);
            write!(shown, "\"{text}\" own")?;
            push_glyphs(shown, infos.unwrap_or(&[]), positions.unwrap_or(&[]))
        }
        LineGlyphs::Shaped(glyphs) => {
            write!(shown, "\"{text}\" shaped again")?;
            push_glyphs(shown, glyphs.glyph_infos(), glyphs.glyph_positions())
        }
    }
}

/// A buffer with the characters of a text.
fn text_buffer(alloc: Global, text: &str) -> Result<UnicodeBuffer, WordFault> {
    let mut buffer = UnicodeBuffer::new(alloc);
    if !buffer.push_str(text)? {
        return Err(WordFault::Shape(ShapeCause::TooLong));
    }
    Ok(buffer)
}

/// Shapes a text with the features that are on by default.
fn shape_buffer(setup: Setup<'_>, buffer: UnicodeBuffer) -> Result<GlyphBuffer, WordFault> {
    let glyphs = shape(setup.alloc, setup.face, setup.data, &[], buffer);
    let glyphs = glyphs.map_err(|fault| fault.cause)?;
    Ok(glyphs)
}

/// Appends the number of each glyph and its advance, and ends the line.
fn push_glyphs(
    shown: &mut String,
    infos: &[GlyphInfo],
    positions: &[GlyphPosition],
) -> Result<(), WordFault> {
    for (info, position) in infos.iter().zip(positions) {
        let (glyph, advance) = (info.glyph_id, position.x_advance);
        write!(shown, " {glyph}+{advance}")?;
    }
    shown.push_str("\n")?;
    Ok(())
}
