//! Glyphs as words: a number, decimal or as U+ and hexadecimal digits, `@` and the cluster, and other fields by a
//! letter.
//!
//! These are: `s` the syllable, its serial number and its kind; `c` the category; `x` the position in a syllable, or
//! another number of the shaper's own; `m` the mask; `i` the glyph that was found for a character; `p` the property
//! word; `k` the combining class; `g` glyph properties; `l` the ligature word; `a` and `b` both advances, `o` and `q`
//! both offsets. Masks and ligature words are hexadecimal, and a field that is missing is zero. A list of glyphs has
//! commas between.
use crate::rows::{distance, hexadecimal, natural, value};
use buffer_glyphs::flags::{GlyphPropsFlags, UnicodeProps};
use buffer_glyphs::info::hb_glyph_info_t;
use buffer_glyphs::position::GlyphPosition;
use script_categories::{hb_ot_script_shaper_t, indic_position_number};

fn number_of(text: &str) -> u32 {
    match text.strip_prefix("U+") {
        Some(digits) => u32::from_str_radix(digits, 16).unwrap_or(0),
        None => text.parse::<u32>().unwrap_or(0),
    }
}

/// The number of a name, or the number that stands in its place.
fn byte(found: Option<u8>, text: &str) -> u8 {
    match found {
        Some(number) => number,
        None => text.parse::<u8>().unwrap_or(0),
    }
}

/// The number of a key, zero where it is missing or has more than 16 bits.
pub fn word(glyph: &str, key: &str) -> u16 {
    u16::try_from(natural(glyph, key)).unwrap_or(0)
}

/// The byte of a syllable, which has a serial number and a kind.
fn syllable_byte(shaper: hb_ot_script_shaper_t, text: &str) -> u8 {
    match text.split_once('.') {
        Some((serial, kind)) => {
            let kind = byte(shaper.kind_number(kind), kind);
            byte(None, serial).wrapping_mul(16).wrapping_add(kind)
        }
        None => 0,
    }
}

/// A glyph of a row, with the names of a shaper's categories and kinds.
pub fn info_of(shaper: hb_ot_script_shaper_t, glyph: &str) -> hb_glyph_info_t {
    let first = glyph.split_whitespace().next().unwrap_or("");
    let (number, cluster) = first.split_once('@').unwrap_or((first, ""));
    let category = value(glyph, "c");
    let position = value(glyph, "x");
    hb_glyph_info_t {
        glyph_id: number_of(number),
        cluster: number_of(cluster),
        mask: hexadecimal(glyph, "m"),
        glyph_index: natural(glyph, "i"),
        unicode_props: UnicodeProps(word(glyph, "p")),
        modified_combining_class: byte(None, value(glyph, "k")),
        glyph_props: GlyphPropsFlags(word(glyph, "g")),
        lig_props: hexadecimal(glyph, "l"),
        syllable: syllable_byte(shaper, value(glyph, "s")),
        category: byte(shaper.category_number(category), category),
        auxiliary: byte(indic_position_number(position), position),
        ..hb_glyph_info_t::default()
    }
}

/// The position of a row's glyph.
pub fn position_of(glyph: &str) -> GlyphPosition {
    GlyphPosition {
        x_advance: distance(glyph, "a"),
        y_advance: distance(glyph, "b"),
        x_offset: distance(glyph, "o"),
        y_offset: distance(glyph, "q"),
        ..GlyphPosition::default()
    }
}

/// A field of a glyph by its letter: `n` is the number, `@` the cluster, `f` the glyph flags, which `m` leaves out,
/// and `u` the property word without the continuation bit.
fn seen(info: &hb_glyph_info_t, position: &GlyphPosition, letter: char) -> i64 {
    match letter {
        'n' => i64::from(info.glyph_id),
        '@' => i64::from(info.cluster),
        'm' => i64::from(info.mask / 8),
        'f' => i64::from(info.mask % 8),
        'i' => i64::from(info.glyph_index),
        'p' => i64::from(info.unicode_props.0),
        'u' => i64::from(info.unicode_props.0 & !0x80),
        'k' => i64::from(info.modified_combining_class),
        'g' => i64::from(info.glyph_props.0),
        'l' => i64::from(info.lig_props),
        's' => i64::from(info.syllable),
        'c' => i64::from(info.category),
        'x' => i64::from(info.auxiliary),
        'a' => i64::from(position.x_advance),
        'b' => i64::from(position.y_advance),
        'o' => i64::from(position.x_offset),
        _ => i64::from(position.y_offset),
    }
}

/// Whether a glyph has the fields of a row's glyph that these letters name.
fn agrees(
    shaper: hb_ot_script_shaper_t,
    letters: &str,
    wanted: &str,
    info: &hb_glyph_info_t,
    position: &GlyphPosition,
) -> bool {
    let wanted_info = info_of(shaper, wanted);
    let wanted_position = position_of(wanted);
    for letter in letters.chars() {
        if seen(info, position, letter) != seen(&wanted_info, &wanted_position, letter) {
            return false;
        }
    }
    true
}

/// Whether there are as many glyphs as in a list, and they have its fields that these letters name.
pub fn are_wanted(
    shaper: hb_ot_script_shaper_t,
    letters: &str,
    wanted: &str,
    infos: &[hb_glyph_info_t],
    positions: &[GlyphPosition],
) -> bool {
    for ((wanted, info), position) in wanted.split_terminator(',').zip(infos).zip(positions) {
        if !agrees(shaper, letters, wanted, info, position) {
            return false;
        }
    }
    infos.len() == wanted.split_terminator(',').count() && infos.len() == positions.len()
}
