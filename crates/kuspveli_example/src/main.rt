//! Shapes three texts over the crate `kuspveli` alone, and prints where carets may stand in them: a font file is read once,
//! and a cache keeps the plans.
#![tactic(auto)]

ghost use Rattle.kuspveli.specs.buffer_tags.LanguageTable.{tags_of_table};
ghost use Rattle.kuspveli.specs.plan_cache.Cache.{IsCacheOf};

use caret_model::{Caret, CaretModel};
use kuspveli::{
    Direction, Face, FontParts, GlyphBuffer, LanguageTable, PlanCache, RunFault, RunInput,
    SerializeFlags, ShapeCause, SyllableTable, TextTables, UnicodeBuffer, hb_shape_data_t,
    read_font_input,
};
use std::alloc::{AllocError, Global};
use std::fs;

type Data<'a> = hb_shape_data_t<'a, SyllableTable, LanguageTable>;

fn main(rt: HostRuntime) -> Result<(), RunFault> {
    let input = read(&rt)?;
    shape_texts(&rt, &input.face, &input.tables)
}

/// Reads the font from its file, over the tables of Unicode 15.0, into a box, since they are large.
fn read(rt: &HostRuntime) -> Result<Box<RunInput>, RunFault> {
    let font = fs::read(rt, "font.ttf").map_err(|_| RunFault::Read)?;
    let input = read_font_input(rt.alloc(), &font, 0, FontParts::all())?;
    Ok(Box::new(rt.alloc(), input)?)
}

/// Shapes the texts in turn, with plans that are made once.
fn shape_texts(rt: &HostRuntime, face: &Face, tables: &TextTables) -> Result<(), RunFault> {
    let data = hb_shape_data_t {
        tables: &tables.characters,
        spans: &tables.syllables,
        languages: &tables.languages,
    };
    let mut plans = PlanCache::new(rt.alloc(), 4);
    for text in ["afi", "fib", "baffi"] {
        let line = shape_line(rt.alloc(), face, data, &mut plans, text)?;
        println!(rt; "{line}").map_err(|_| RunFault::Write)?;
    }
    Ok(())
}

/// Shapes a text by a plan of the cache, and prints its glyphs and its carets into a line.
fn shape_line(
    alloc: Global,
    face: &Face,
    shape_data: Data<'_>,
    plans: &mut PlanCache,
    text: &str,
) -> Result<String, RunFault>
    requires { IsCacheOf face.now (tags_of_table shape_data.languages.now) plans.old }
    ensures { IsCacheOf face.now (tags_of_table shape_data.entry.languages.now) plans.new }
{
    let buffer = text_buffer(alloc, text)?;
    let direction = buffer.guessed_direction();
    let glyphs = plans.shape(alloc, face, shape_data, &[], buffer);
    let glyphs = glyphs.map_err(|fault| fault.cause)?;
    print_line(alloc, face, &glyphs, text, direction)
}

/// A buffer with the characters of a text.
fn text_buffer(alloc: Global, text: &str) -> Result<UnicodeBuffer, RunFault> {
    let mut buffer = UnicodeBuffer::new(alloc);
    if !buffer.push_str(text)? {
        return Err(RunFault::Shape(ShapeCause::TooLong));
    }
    Ok(buffer)
}

/// Prints the glyphs and the carets of a text into a line.
fn print_line(
    alloc: Global,
    face: &Face,
    glyphs: &GlyphBuffer,
    text: &str,
    direction: Direction,
) -> Result<String, RunFault> {
    let mut line = glyphs.serialize(alloc, face, SerializeFlags::NO_GLYPH_NAMES)?;
    if let Ok(model) = CaretModel::new(alloc, glyphs, text, direction) {
        push_carets(&mut line, model.carets())?;
    }
    Ok(line)
}

/// Appends the byte and the position of each caret.
fn push_carets(line: &mut String, carets: &[Caret]) -> Result<(), AllocError> {
    for caret in carets {
        let Caret { byte, position } = *caret;
        write!(line, " {byte}@{position}")?;
    }
    Ok(())
}
