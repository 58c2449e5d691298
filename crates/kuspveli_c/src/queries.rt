//! The calls that ask what a font says of itself and what its last text came to, as `include/kuspveli.h` declares them. Each
//! leaves the font as it was.
//!
//! The calls for tags of features and of scripts have one form, over rows of two types.
ghost use Rattle.std.specs.Prelude.{◌≡◌, ◌≢◌, is_some, length, unwrap_or};
ghost use Rattle.std.specs.Option.{option_map};
ghost use Rattle.c_text.specs.Numbers.{direction_number, script_number};
ghost use Rattle.c_text.specs.Written.{extents_of, with_front};
ghost use Rattle.c_text.specs.Fonts.{glyphs_of, segment_in};
ghost use Rattle.c_text.specs.Queries.{AreSlicesOf, IsSlicesFault, ascender_in, carets_in, extents_in, feature_tags_in, glyph_in, h_advance_in, line_metrics_in, name_in, script_tags_in, upem_in, v_advance_in};

use c_text::handle::Handle;
use c_text::numbers::{NO_FONT, direction_number, script_number};
use c_text::queries::{
    glyph_extents, glyph_h_advance, glyph_name, glyph_v_advance, layout_in, line_metrics,
    nominal_glyph, write_feature_tags, write_ligature_carets, write_script_tags,
};
use c_text::types::{kus_glyph_extents_t, kus_line_metrics_t, kus_slice_t};
use c_text::written::write_front;
use std::alloc::Global;

/// The version of the library: each of its three numbers in a byte, 0.2.0 as 0x000200.
#[unsafe(no_mangle)]
pub extern "C" fn kus_version() -> u32
    ensures { result ≡ 0x0200 }
{
    0x0200
}

/// The direction by which the font's last text was shaped (`hb_direction_t`), 0 where there is none.
#[unsafe(no_mangle)]
pub extern "C" fn kus_get_direction(alloc: Global, font: &mut Handle) -> u32
    ensures same { font.new.value ≡ font.old.value }
    ensures direction { result ≡ direction_number (segment_in font.old.value).direction }
{
    let Some(shown) = font.take(alloc) else {
        return 0;
    };
    let direction = direction_number(shown.segment().direction);
    font.put(alloc, shown);
    direction
}

/// The script by which the font's last text was shaped (`hb_script_t`), 0 where there is none.
#[unsafe(no_mangle)]
pub extern "C" fn kus_get_script(alloc: Global, font: &mut Handle) -> u32
    ensures same { font.new.value ≡ font.old.value }
    ensures script { result ≡ script_number (segment_in font.old.value).script }
{
    let Some(shown) = font.take(alloc) else {
        return 0;
    };
    let script = script_number(shown.segment().script);
    font.put(alloc, shown);
    script
}

/// Each run of the last text's glyphs with one cluster, and the bytes of the text that it comes from, as many as there is room
/// for, and how many there are; none where the glyphs don't fit the text.
#[tactic(auto, using(crate::proofs::Slices::slices_of_font, crate::proofs::Slices::font_refuses_slices))]
#[unsafe(no_mangle)]
pub extern "C" fn kus_get_slices(
    alloc: Global,
    font: &mut Handle,
    text: &[u8],
    slices: &mut [kus_slice_t],
    count: &mut usize,
) -> u32
    ensures same { font.new.value ≡ font.old.value }
    ensures slices { result ≡ 0 → AreSlicesOf (glyphs_of font.old.value) text.now slices.old slices.new count.new }
    ensures refused { result ≢ 0 → result ≢ 1 → IsSlicesFault font.old.value text.now result }
    ensures none { result ≢ 0 → (count.new ≡ 0) × (slices.new ≡ slices.old) }
{
    *count = 0;
    let Some(mut shown) = font.take(alloc) else {
        return NO_FONT;
    };
    let status = shown.write_slices(alloc, text, slices, count);
    font.put(alloc, shown);
    status
}

/// The units of the font's em, 0 where there is no font.
#[unsafe(no_mangle)]
pub extern "C" fn kus_font_get_upem(alloc: Global, font: &mut Handle) -> u32
    ensures same { font.new.value ≡ font.old.value }
    ensures upem { result ≡ upem_in font.old.value }
{
    let Some(shown) = font.take(alloc) else {
        return 0;
    };
    let upem = shown.face().units_per_em() as u32;
    font.put(alloc, shown);
    upem
}

/// The height of the font's ascender above the baseline, in font units; 0 where the font gives none or there is no font.
#[unsafe(no_mangle)]
pub extern "C" fn kus_font_get_ascender(alloc: Global, font: &mut Handle) -> i32
    ensures same { font.new.value ≡ font.old.value }
    ensures ascender { result ≡ ascender_in font.old.value }
{
    let Some(shown) = font.take(alloc) else {
        return 0;
    };
    let ascender = i32::from(shown.face().ascender());
    font.put(alloc, shown);
    ascender
}

/// Whether the font's file gives metrics of lines, in font units, which are then written.
#[unsafe(no_mangle)]
pub extern "C" fn kus_font_get_line_metrics(
    alloc: Global,
    font: &mut Handle,
    metrics: &mut kus_line_metrics_t,
) -> bool
    ensures same { font.new.value ≡ font.old.value }
    ensures found { result ≡ is_some (line_metrics_in font.old.value) }
    ensures metrics { metrics.new ≡ unwrap_or (line_metrics_in font.old.value) metrics.old }
{
    let Some(shown) = font.take(alloc) else {
        return false;
    };
    let found = line_metrics(&shown);
    font.put(alloc, shown);
    let Some(found) = found else {
        return false;
    };
    *metrics = found;
    true
}

/// Whether the font has a glyph for a character, and which; 0 where it has none.
#[unsafe(no_mangle)]
pub extern "C" fn kus_font_get_nominal_glyph(
    alloc: Global,
    font: &mut Handle,
    unicode: u32,
    glyph: &mut u32,
) -> bool
    ensures same { font.new.value ≡ font.old.value }
    ensures found { result ≡ is_some (glyph_in font.old.value unicode) }
    ensures glyph { glyph.new ≡ unwrap_or (glyph_in font.old.value unicode) 0 }
{
    *glyph = 0;
    let Some(shown) = font.take(alloc) else {
        return false;
    };
    let found = nominal_glyph(&shown, unicode);
    font.put(alloc, shown);
    let Some(found) = found else {
        return false;
    };
    *glyph = u32::from(found);
    true
}

/// The name of a glyph in UTF-8, as many bytes as there is room for; answers how many there are, 0 where the font gives none.
#[unsafe(no_mangle)]
pub extern "C" fn kus_font_get_glyph_name(
    alloc: Global,
    font: &mut Handle,
    glyph: u32,
    name: &mut [u8],
) -> usize
    ensures same { font.new.value ≡ font.old.value }
    ensures count { result ≡ length (name_in font.old.value glyph) }
    ensures name { name.new ≡ with_front (name_in font.old.value glyph) name.old }
{
    let Some(shown) = font.take(alloc) else {
        return 0;
    };
    let found = glyph_name(&shown, glyph);
    write_front(found, name);
    let count = found.len();
    font.put(alloc, shown);
    count
}

/// Whether the font gives the box of a glyph's ink, which is then written.
#[unsafe(no_mangle)]
pub extern "C" fn kus_font_get_glyph_extents(
    alloc: Global,
    font: &mut Handle,
    glyph: u32,
    extents: &mut kus_glyph_extents_t,
) -> bool
    ensures same { font.new.value ≡ font.old.value }
    ensures found { result ≡ is_some (extents_in font.old.value glyph) }
    ensures extents { extents.new ≡ unwrap_or (option_map extents_of (extents_in font.old.value glyph)) extents.old }
{
    let Some(shown) = font.take(alloc) else {
        return false;
    };
    let found = glyph_extents(&shown, glyph);
    font.put(alloc, shown);
    let Some(found) = found else {
        return false;
    };
    *extents = found;
    true
}

/// The advance that the font gives a glyph in a horizontal line, in font units; 0 where there is no font or no glyph has the
/// number.
#[unsafe(no_mangle)]
pub extern "C" fn kus_font_get_glyph_h_advance(alloc: Global, font: &mut Handle, glyph: u32) -> i32
    ensures same { font.new.value ≡ font.old.value }
    ensures advance { result ≡ h_advance_in font.old.value glyph }
{
    let Some(shown) = font.take(alloc) else {
        return 0;
    };
    let advance = glyph_h_advance(&shown, glyph);
    font.put(alloc, shown);
    advance
}

/// The advance that the font gives a glyph in a vertical line, in font units, at most 0; 0 where there is no font or no
/// glyph has the number.
#[unsafe(no_mangle)]
pub extern "C" fn kus_font_get_glyph_v_advance(alloc: Global, font: &mut Handle, glyph: u32) -> i32
    ensures same { font.new.value ≡ font.old.value }
    ensures advance { result ≡ v_advance_in font.old.value glyph }
{
    let Some(shown) = font.take(alloc) else {
        return 0;
    };
    let advance = glyph_v_advance(&shown, glyph);
    font.put(alloc, shown);
    advance
}

/// The carets of a ligature that the font's file gives (GDEF, the ligature caret list), in font units from the glyph's origin, as
/// many as there is room for, in the file's order; answers how many there are.
#[unsafe(no_mangle)]
pub extern "C" fn kus_font_get_ligature_carets(
    alloc: Global,
    font: &mut Handle,
    glyph: u32,
    carets: &mut [i32],
) -> usize
    ensures same { font.new.value ≡ font.old.value }
    ensures count { result ≡ length (carets_in font.old.value glyph) }
    ensures carets { carets.new ≡ with_front (carets_in font.old.value glyph) carets.old }
{
    let Some(shown) = font.take(alloc) else {
        return 0;
    };
    let count = write_ligature_carets(&shown, glyph, carets);
    font.put(alloc, shown);
    count
}

/// The tags of the features of a layout table, GSUB or GPOS, as many as there is room for, in the order of their indices;
/// answers how many there are.
#[unsafe(no_mangle)]
pub extern "C" fn kus_font_get_feature_tags(
    alloc: Global,
    font: &mut Handle,
    table: u32,
    tags: &mut [u32],
) -> usize
    ensures same { font.new.value ≡ font.old.value }
    ensures count { result ≡ length (feature_tags_in font.old.value table) }
    ensures tags { tags.new ≡ with_front (feature_tags_in font.old.value table) tags.old }
{
    let Some(shown) = font.take(alloc) else {
        return 0;
    };
    let count = write_feature_tags(layout_in(shown.face(), table), tags);
    font.put(alloc, shown);
    count
}

/// The tags of the scripts of a layout table, GSUB or GPOS, as many as there is room for; answers how many there are.
#[unsafe(no_mangle)]
pub extern "C" fn kus_font_get_script_tags(
    alloc: Global,
    font: &mut Handle,
    table: u32,
    tags: &mut [u32],
) -> usize
    ensures same { font.new.value ≡ font.old.value }
    ensures count { result ≡ length (script_tags_in font.old.value table) }
    ensures tags { tags.new ≡ with_front (script_tags_in font.old.value table) tags.old }
{
    let Some(shown) = font.take(alloc) else {
        return 0;
    };
    let count = write_script_tags(layout_in(shown.face(), table), tags);
    font.put(alloc, shown);
    count
}
