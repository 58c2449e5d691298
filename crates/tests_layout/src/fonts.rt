//! A font's answers about characters and glyphs.
use crate::rows::{first_wrong, prints};
use buffer_glyphs::names::{GlyphId, GlyphNames};
use layout_face::Face;
use shell_json::fault::JsonFault;
use std::alloc::{AllocError, Global};

fn glyphs_of(font: &Face, character: char, selector: char) -> (Option<u16>, bool, Option<u16>) {
    (
        font.get_nominal_glyph(character),
        font.has_glyph(character),
        font.glyph_variation_index(character, selector),
    )
}

fn lengths_of(font: &Face, glyph: u16) -> [i32; 5] {
    [
        font.units_per_em(),
        font.glyph_h_advance(glyph),
        font.glyph_v_advance(glyph),
        font.glyph_h_origin(glyph),
        font.glyph_v_origin(glyph),
    ]
}

fn name_of(font: &Face, glyph: u16) -> Option<&str> {
    GlyphNames::glyph_name(font, GlyphId(glyph))
}

fn classes_of(font: &Face, glyph: u16) -> (u16, u16) {
    (font.glyph_class(glyph), font.mark_attachment_class(glyph))
}

fn sets_with(font: &Face, glyph: u16) -> [bool; 4] {
    [
        font.is_in_mark_set(0, glyph),
        font.is_in_mark_set(1, glyph),
        font.is_in_mark_set(2, glyph),
        font.is_in_mark_set(3, glyph),
    ]
}

fn tables_of(font: &Face) -> (bool, bool, bool) {
    (
        font.has_glyph_classes(),
        font.gsub().is_some(),
        font.gpos().is_some(),
    )
}

/// A character by its number.
fn character(number: &str) -> Option<char> {
    char::from_u32(number.parse::<u32>().ok()?)
}

/// A character and the variation selector after it, if there is one, by their numbers.
fn characters(numbers: &str) -> Option<(char, Option<char>)> {
    match numbers.split_once(' ') {
        Some((letter, selector)) => Some((character(letter)?, Some(character(selector)?))),
        None => Some((character(numbers)?, None)),
    }
}

/// Whether a font's answer about a character, alone or with a variation selector, is that of a row.
pub(crate) fn answers_of_characters(
    alloc: Global,
    font: &Face,
    numbers: &str,
    answer: &str,
) -> Result<bool, AllocError> {
    match characters(numbers) {
        Some((letter, Some(selector))) => {
            prints(alloc, &glyphs_of(font, letter, selector), answer)
        }
        Some((letter, None)) => prints(alloc, &font.get_nominal_glyph(letter), answer),
        None => Ok(false),
    }
}

/// Whether a font's answer to a question is that of its row.
pub(crate) fn answers(
    alloc: Global,
    font: &Face,
    question: &str,
    glyph: u16,
    answer: &str,
) -> Result<bool, AllocError> {
    match question {
        "lengths" => prints(alloc, &lengths_of(font, glyph), answer),
        "extents" => prints(alloc, &font.glyph_extents(glyph), answer),
        "name" => prints(alloc, &name_of(font, glyph), answer),
        "classes" => prints(alloc, &classes_of(font, glyph), answer),
        "sets" => prints(alloc, &sets_with(font, glyph), answer),
        "tables" => prints(alloc, &tables_of(font), answer),
        _ => Ok(false),
    }
}

fn many_rows(alloc: Global) -> Result<String, AllocError> {
    let mut text = String::from_str(alloc, r#"{"cmap":[[131072,0]"#)?;
    for row in 1..70_000u32 {
        write!(text, ",[{},{}]", 131072 + row, row % 1000)?;
    }
    text.push_str("]}")?;
    Ok(text)
}

/// Whether a font of more than 65,536 characters has the last one's glyph.
pub(crate) fn has_many_characters(alloc: Global) -> Result<bool, JsonFault> {
    let text = many_rows(alloc)?;
    let wrong = first_wrong(alloc, &text, "character 201071: Some(999)")?;
    Ok(wrong.is_none())
}
