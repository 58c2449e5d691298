//! What a font answers to queries, of itself and of its last text's glyphs.
//!
//! The functions for tags of features and of scripts have one form, over rows of two types.
ghost use Rattle.std.specs.Prelude.{◌≡◌, ◌≢◌, Some, length};
ghost use Rattle.std.specs.Option.{option_copied, option_map};
ghost use Rattle.c_text.specs.Queries.{AreSlicesOf, IsSlicesRefusal, carets_in, extents_in, feature_tags, glyph_in, h_advance_in, layout_in, line_metrics_in, name_in, script_tags, v_advance_in};
ghost use Rattle.c_text.specs.Written.{extents_of, with_front};

use crate::font::Font;
use crate::numbers::{NO_SLICES, NOT_UTF8, OK, OUT_OF_MEMORY};
use crate::types::{kus_glyph_extents_t, kus_line_metrics_t, kus_slice_t};
use crate::written::{extents_of, line_metrics_of, write_front};
use buffer_wrappers::glyphs::GlyphBuffer;
use font_carets::glyph_carets;
use layout_face::Face;
use layout_tables::table::ScriptsAndFeatures;
use shape_slices::fitting::slices_fit;
use shape_slices::slices::source_slices;
use shell_readers::values::utf8;
use std::alloc::Global;

/// The slices of glyphs and a text, as many as there is room for, and how many there are; answers a status.
#[tactic(auto, using(crate::proofs::Slices::slices_of_bytes))]
pub fn write_slices(
    alloc: Global,
    glyphs: &GlyphBuffer,
    text: &[u8],
    slices: &mut [kus_slice_t],
    count: &mut usize,
) -> u32
    requires { count.old ≡ 0 }
    ensures slices { result ≡ 0 → AreSlicesOf glyphs.now text.now slices.old slices.new count.new }
    ensures refused { result ≢ 0 → result ≢ 1 → IsSlicesRefusal glyphs.now text.now result }
    ensures none { result ≢ 0 → (count.new ≡ 0) × (slices.new ≡ slices.old) }
{
    let Some(text) = utf8(text) else {
        return NOT_UTF8;
    };
    if !slices_fit(glyphs, text) {
        return NO_SLICES;
    }
    let Ok(found) = source_slices(alloc, glyphs, text) else {
        return OUT_OF_MEMORY;
    };
    *count = found.len();
    write_front(found.as_slice(), slices);
    OK
}

/// The metrics of a line that a font's file gives.
pub fn line_metrics(font: &Font) -> Option<kus_line_metrics_t>
    ensures { result ≡ line_metrics_in (Some font.now) }
{
    match font.line() {
        Some(line) => Some(line_metrics_of(line)),
        None => None,
    }
}

/// The glyph that a font has for a character; none where the number is no character.
pub fn nominal_glyph(font: &Font, unicode: u32) -> Option<u16>
    ensures { result ≡ glyph_in (Some font.now) unicode }
{
    font.face().get_nominal_glyph(char::from_u32(unicode)?)
}

/// The name that a font has for a glyph, empty where it has none.
pub fn glyph_name(font: &Font, glyph: u32) -> &[u8]
    ensures { result.now ≡ name_in (Some font.now) glyph }
{
    let Ok(glyph) = u16::try_from(glyph) else {
        return b"";
    };
    match font.face().glyph_name(glyph) {
        Some(name) => name.as_bytes(),
        None => b"",
    }
}

/// The box that a font has for a glyph's ink.
pub fn glyph_extents(font: &Font, glyph: u32) -> Option<kus_glyph_extents_t>
    ensures { result ≡ option_map extents_of (extents_in (Some font.now) glyph) }
{
    let Ok(glyph) = u16::try_from(glyph) else {
        return None;
    };
    match font.face().glyph_extents(glyph) {
        Some(extents) => Some(extents_of(extents)),
        None => None,
    }
}

/// The advance that a font gives a glyph in a horizontal line, in font units.
pub fn glyph_h_advance(font: &Font, glyph: u32) -> i32
    ensures { result ≡ h_advance_in (Some font.now) glyph }
{
    let Ok(glyph) = u16::try_from(glyph) else {
        return 0;
    };
    font.face().glyph_h_advance(glyph)
}

/// The advance that a font gives a glyph in a vertical line, in font units, at most 0.
pub fn glyph_v_advance(font: &Font, glyph: u32) -> i32
    ensures { result ≡ v_advance_in (Some font.now) glyph }
{
    let Ok(glyph) = u16::try_from(glyph) else {
        return 0;
    };
    font.face().glyph_v_advance(glyph)
}

/// Writes the carets of a ligature, as many as there is room for; answers how many there are.
pub fn write_ligature_carets(font: &Font, glyph: u32, carets: &mut [i32]) -> usize
    ensures count { result ≡ length (carets_in (Some font.now) glyph) }
    ensures carets { carets.new ≡ with_front (carets_in (Some font.now) glyph) carets.old }
{
    let found = glyph_carets(font.ligatures(), glyph);
    write_front(found, carets);
    found.len()
}

/// The lists of the layout table that a tag names.
pub fn layout_in(face: &Face, table: u32) -> Option<&ScriptsAndFeatures>
    ensures { option_copied result ≡ layout_in face.now table }
{
    match table {
        0x47535542 => face.gsub().map(|gsub| &gsub.inner),
        0x47504F53 => face.gpos().map(|gpos| &gpos.inner),
        _ => None,
    }
}

/// Writes the tags of a layout table's features, as many as there is room for; answers how many there are.
pub fn write_feature_tags(layout: Option<&ScriptsAndFeatures>, tags: &mut [u32]) -> usize
    ensures count { result ≡ length (feature_tags (option_copied layout.entry)) }
    ensures tags { tags.new ≡ with_front (feature_tags (option_copied layout.entry)) tags.old }
{
    let Some(layout) = layout else {
        return 0;
    };
    write_front(layout.features(), tags);
    layout.features().len()
}

/// Writes the tags of a layout table's scripts, as many as there is room for; answers how many there are.
pub fn write_script_tags(layout: Option<&ScriptsAndFeatures>, tags: &mut [u32]) -> usize
    ensures count { result ≡ length (script_tags (option_copied layout.entry)) }
    ensures tags { tags.new ≡ with_front (script_tags (option_copied layout.entry)) tags.old }
{
    let Some(layout) = layout else {
        return 0;
    };
    write_front(layout.scripts(), tags);
    layout.scripts().len()
}
