//! terminal_example FONT TEXT COLUMNS [--svg]: draws the lines of a text in the cells of a terminal, over the crates
//! `kuspveli` and `cell_grid` alone; FONT is a font file. Each run is drawn with the numbers of its glyphs, as text or as
//! an SVG image; what doesn't fit COLUMNS is cut off. All is printed at once, at the end. Where something is wrong
//! nothing is: a line on standard error says what, and of which word.
#![tactic(auto)]

use cell_grid::{CellFault, CellGlyph, CellGrid, CellRange, CellRun, cell_grid, columns_of};
use kuspveli::{
    Direction, Face, FontFault, FontParts, LanguageTable, RunFault, ShapeCause, SyllableTable,
    TextTables, UnicodeBuffer, default_tables, hb_shape_data_t, read_font, shape,
};
use std::alloc::{AllocError, Global};
use std::process::ExitCode;
use std::{env, fs, io};
use thiserror::Error;

/// Why nothing is drawn.
#[derive(Clone, Copy, Debug, Error)]
enum Fault<'a> {
    #[error("expected FONT TEXT COLUMNS, and then --svg or nothing")]
    Words,
    /// The word that is wrong, or that names the file.
    #[error("{0:?}: {1}")]
    Word(&'a str, WordFault),
    #[error("standard output: {0}")]
    Write(io::Error),
}

/// What is wrong with a word, or with the file that it names.
#[derive(Clone, Copy, Debug, Error)]
enum WordFault {
    #[error("not a number of columns")]
    Columns,
    #[error(transparent)]
    Read(#[from] io::Error),
    #[error(transparent)]
    Font(#[from] FontFault),
    #[error(transparent)]
    Tables(#[from] RunFault),
    #[error(transparent)]
    Shape(#[from] ShapeCause),
    #[error(transparent)]
    Cells(#[from] CellFault),
    #[error(transparent)]
    Memory(#[from(alloc)] AllocError),
}

/// What all lines are shaped with.
#[derive(Clone, Copy)]
struct Setup<'a> {
    alloc: Global,
    face: &'a Face,
    data: hb_shape_data_t<'a, SyllableTable, LanguageTable>,
}

/// How the screen is drawn.
#[derive(Clone, Copy)]
struct Screen {
    columns: usize,
    is_svg: bool,
}

/// A run on the screen.
#[derive(Clone, Copy)]
struct ScreenRun<'a> {
    /// The index of its line.
    row: usize,
    columns: CellRange,
    text: &'a str,
}

fn main(rt: HostRuntime) -> ExitCode {
    match words(&rt) {
        Ok(words) => end(&rt, print_screen(&rt, &words)),
        Err(_) => end(&rt, Err(Fault::Words)),
    }
}

/// The command-line words, which have to be UTF-8.
fn words(rt: &HostRuntime) -> io::Result<Vec<String>> {
    let words = env::args(rt)?.collect(rt.alloc())?;
    Ok(words)
}

/// The status, once the line of a fault is written to standard error; where that fails, the status alone shows it.
fn end(rt: &HostRuntime, done: Result<(), Fault<'_>>) -> ExitCode {
    let Err(fault) = done else {
        return ExitCode::SUCCESS;
    };
    let _ = eprintln!(rt; "terminal_example: {fault}");
    ExitCode::FAILURE
}

/// Draws the screen, and prints it.
fn print_screen<'a>(rt: &HostRuntime, words: &'a [String]) -> Result<(), Fault<'a>> {
    let shown = draw_words(rt, words)?;
    match print!(rt; "{shown}") {
        Ok(()) => Ok(()),
        Err(error) => Err(Fault::Write(error)),
    }
}

/// Reads the words, and draws what they name.
fn draw_words<'a>(rt: &HostRuntime, words: &'a [String]) -> Result<String, Fault<'a>> {
    match words {
        [_, font, text, columns] => draw_files(rt, font, text, columns, false),
        [_, font, text, columns, svg] if svg.as_str() == "--svg" => {
            draw_files(rt, font, text, columns, true)
        }
        _ => Err(Fault::Words),
    }
}

/// Reads the number of columns and the tables of Unicode 15.0, and draws a text.
fn draw_files<'a>(
    rt: &HostRuntime,
    font: &'a str,
    text: &'a str,
    columns: &'a str,
    is_svg: bool,
) -> Result<String, Fault<'a>> {
    let count: u16 = columns
        .parse()
        .map_err(|_| Fault::Word(columns, WordFault::Columns))?;
    let screen = Screen {
        columns: usize::from(count),
        is_svg,
    };
    let tables = unicode_tables(rt.alloc()).map_err(|fault| Fault::Word(text, fault))?;
    draw_by_tables(rt, &tables, font, text, screen)
}

/// Reads a font and a text, and draws the text.
fn draw_by_tables<'a>(
    rt: &HostRuntime,
    tables: &TextTables,
    font: &'a str,
    text: &'a str,
    screen: Screen,
) -> Result<String, Fault<'a>> {
    let face = read_face(rt, font).map_err(|fault| Fault::Word(font, fault))?;
    draw_file(rt, tables, &face, text, screen).map_err(|fault| Fault::Word(text, fault))
}

/// Reads the first font of a file into a box, since it is large.
fn read_face(rt: &HostRuntime, name: &str) -> Result<Box<Face>, WordFault> {
    let bytes = fs::read(rt, name)?;
    let face = read_font(rt.alloc(), &bytes, 0, FontParts::all())?;
    Ok(Box::new(rt.alloc(), face)?)
}

/// The tables of Unicode 15.0 in a box, since they are large.
fn unicode_tables(alloc: Global) -> Result<Box<TextTables>, WordFault> {
    let tables = default_tables(alloc)?;
    Ok(Box::new(alloc, tables)?)
}

/// Reads a text, and draws its lines.
fn draw_file(
    rt: &HostRuntime,
    tables: &TextTables,
    face: &Face,
    name: &str,
    screen: Screen,
) -> Result<String, WordFault> {
    let text = fs::read_to_string(rt, name)?;
    let setup = Setup {
        alloc: rt.alloc(),
        face,
        data: hb_shape_data_t {
            tables: &tables.characters,
            spans: &tables.syllables,
            languages: &tables.languages,
        },
    };
    draw_text(setup, screen, &text)
}

/// Draws the lines of a text, one below the other.
fn draw_text(setup: Setup<'_>, screen: Screen, text: &str) -> Result<String, WordFault> {
    let mut shown = String::new(setup.alloc);
    if screen.is_svg {
        begin_svg(&mut shown, screen.columns, text.lines().count())?;
    }
    for (row, line) in text.lines().enumerate() {
        draw_line(&mut shown, setup, screen, row, line)?;
    }
    if screen.is_svg {
        shown.push_str("</svg>\n")?;
    }
    Ok(shown)
}

/// Begins an image: a cell is 32 wide and 80 high, with the numbers of its glyphs below its text. It has one at least,
/// since viewers refuse an image without a size.
fn begin_svg(shown: &mut String, columns: usize, rows: usize) -> Result<(), AllocError> {
    let width = columns.max(1).saturating_mul(32);
    let height = rows.max(1).saturating_mul(80);
    write!(
        shown,
        "<svg xmlns=\"http://www.w3.org/2000/svg\" width=\"{width}\" height=\"{height}\" font-family=\"monospace\" font-size=\"48\">\n"
    )
}

/// Shapes a line at the level of graphemes, and draws its runs.
fn draw_line(
    shown: &mut String,
    setup: Setup<'_>,
    screen: Screen,
    row: usize,
    line: &str,
) -> Result<(), WordFault> {
    let (grid, direction) = shape_line(setup, line)?;
    for run in grid.runs_between(0, screen.columns) {
        // a wide character that the edge of the screen would divide isn't drawn
        if run.end_cell <= screen.columns {
            let screen_run = ScreenRun {
                row,
                columns: columns_of(direction, screen.columns, cells_of(*run)),
                text: line.get(run.start..run.end).unwrap_or(""),
            };
            draw_run(shown, screen.is_svg, screen_run, grid.glyphs_of(*run))?;
        }
    }
    if !screen.is_svg {
        shown.push_str("\n")?;
    }
    Ok(())
}

/// The cells of a run.
fn cells_of(run: CellRun) -> CellRange {
    CellRange {
        start: run.first_cell,
        end: run.end_cell,
    }
}

/// The cells of a line with the features that are on by default, and its direction.
fn shape_line(setup: Setup<'_>, line: &str) -> Result<(CellGrid, Direction), WordFault> {
    let mut buffer = UnicodeBuffer::new(setup.alloc);
    if !buffer.push_str(line)? {
        return Err(WordFault::Shape(ShapeCause::TooLong));
    }
    let direction = buffer.guessed_direction();
    let glyphs = shape(setup.alloc, setup.face, setup.data, &[], buffer);
    let glyphs = glyphs.map_err(|fault| fault.cause)?;
    let grid = cell_grid(setup.alloc, &glyphs, line, direction)?;
    Ok((grid, direction))
}

/// Draws a run: its text in its cells, and the numbers of its glyphs.
fn draw_run(
    shown: &mut String,
    is_svg: bool,
    screen_run: ScreenRun<'_>,
    glyphs: &[CellGlyph],
) -> Result<(), AllocError> {
    if is_svg {
        return draw_svg_run(shown, screen_run, glyphs);
    }
    let CellRange { start, end } = screen_run.columns;
    write!(shown, "[{start}-{end} ")?;
    for character in screen_run.text.chars() {
        shown.push(shown_character(character))?;
    }
    shown.push(' ')?;
    push_numbers(shown, glyphs)?;
    shown.push(']')
}

fn draw_svg_run(
    shown: &mut String,
    screen_run: ScreenRun<'_>,
    glyphs: &[CellGlyph],
) -> Result<(), AllocError> {
    let CellRange { start, end } = screen_run.columns;
    let left = start.saturating_mul(32);
    let width = end.saturating_mul(32).saturating_sub(left);
    let top = screen_run.row.saturating_mul(80);
    write!(
        shown,
        "<rect x=\"{left}\" y=\"{top}\" width=\"{width}\" height=\"80\" fill=\"none\" stroke=\"gray\"/>\n"
    )?;
    let line = top.saturating_add(50);
    write!(shown, "<text x=\"{left}\" y=\"{line}\">")?;
    push_escaped(shown, screen_run.text)?;
    let below = top.saturating_add(75);
    let size = number_size(width, glyphs.len());
    write!(
        shown,
        "</text>\n<text x=\"{left}\" y=\"{below}\" font-size=\"{size}\">"
    )?;
    push_numbers(shown, glyphs)?;
    shown.push_str("</text>\n")
}

/// The size of letters, three fifths as wide, in which the numbers of some glyphs fit a width: each has five digits at
/// most.
fn number_size(width: usize, count: usize) -> usize {
    let letters = count.saturating_mul(6).saturating_sub(1).max(1);
    (width.saturating_mul(5) / 3 / letters).clamp(1, 10)
}

/// Appends the numbers of glyphs, from left to right.
fn push_numbers(shown: &mut String, glyphs: &[CellGlyph]) -> Result<(), AllocError> {
    let mut is_first = true;
    for glyph in glyphs {
        if !is_first {
            shown.push(',')?;
        }
        is_first = false;
        let number = glyph.glyph_id;
        write!(shown, "{number}")?;
    }
    Ok(())
}

/// Appends a text as XML has it.
fn push_escaped(shown: &mut String, text: &str) -> Result<(), AllocError> {
    for character in text.chars() {
        match shown_character(character) {
            '&' => shown.push_str("&amp;")?,
            '<' => shown.push_str("&lt;")?,
            '>' => shown.push_str("&gt;")?,
            other => shown.push(other)?,
        }
    }
    Ok(())
}

/// The replacement character for a control character, which a terminal would obey and XML can't have.
fn shown_character(character: char) -> char {
    if character.is_control() {
        return char::REPLACEMENT_CHARACTER;
    }
    character
}
