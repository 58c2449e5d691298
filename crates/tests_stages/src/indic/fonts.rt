//! Syllables in order by the forms that a font's lookups would make, and by the masks of its map.
ghost use Rattle.std.specs.Prelude.{OnOk};
ghost use Rattle.buffer_stages.specs.Ready.{IsReady};

use crate::buffers::{buffer_of, has_glyphs};
use crate::indic::font_rows::FONTS;
use crate::rows::{hexadecimal, part, rows_of, value};
use crate::stages::named_face;
use buffer_common::script::{KANNADA, Script, TELUGU};
use buffer_common::script_tags::script_tags;
use buffer_core::buffer::hb_buffer_t;
use buffer_glyphs::cause::ShapeCause;
use buffer_stages::glyphs::are_glyphs;
use layout_face::Face;
use layout_map::builder::hb_ot_map_builder_t;
use layout_map::map::hb_ot_map_t;
use script_categories::hb_ot_script_shaper_t::INDIC_SHAPER;
use script_indic::config::indic_config;
use script_indic::masks::indic_masks;
use script_indic::reordering::{final_reordering, initial_reordering};
use script_indic::requests::collect_features;
use script_indic_reordering::script::IndicMasks;
use std::alloc::{AllocError, Global};
use std::test::Fail;

/// The map of the shaper's features.
pub(crate) fn map_of(
    alloc: Global,
    face: &Face,
    script: Script,
) -> Result<hb_ot_map_t, AllocError> {
    let scripts = script_tags(Some(script));
    let mut builder = hb_ot_map_builder_t::new(alloc, face, scripts.as_slice(), &[]);
    collect_features(&mut builder)?;
    builder.compile(alloc)
}

fn order(
    alloc: Global,
    which: &str,
    map: &hb_ot_map_t,
    script: Script,
    face: &Face,
    buffer: &mut hb_buffer_t,
) -> Result<bool, ShapeCause>
    requires { IsReady buffer.old }
    ensures { OnOk result (IsReady buffer.new) }
{
    if which == "final" {
        return final_reordering(map, Some(script), buffer);
    }
    if !are_glyphs(buffer) {
        return Ok(true);
    }
    initial_reordering(alloc, map, Some(script), face, buffer)
}

/// Whether blwf forms consonants before the base in a script too.
fn forms_before_base(script: Script) -> bool {
    script != TELUGU && script != KANNADA
}

/// The masks of a row's features, as the shaper reads them.
fn wanted_masks(words: &str, script: Script) -> IndicMasks {
    let below = hexadecimal(words, "blwf");
    let before = if forms_before_base(script) { below } else { 0 };
    IndicMasks {
        rphf: hexadecimal(words, "rphf"),
        before_base: hexadecimal(words, "half") | before,
        after_base: below | hexadecimal(words, "abvf") | hexadecimal(words, "pstf"),
        half: hexadecimal(words, "half"),
        pref: hexadecimal(words, "pref"),
        init: hexadecimal(words, "init"),
    }
}

fn six(masks: &IndicMasks) -> [u32; 6] {
    [
        masks.rphf,
        masks.before_base,
        masks.after_base,
        masks.half,
        masks.pref,
        masks.init,
    ]
}

/// Whether a map has the masks of a row.
fn has_masks(map: &hb_ot_map_t, script: Script, words: &str) -> bool {
    let found = indic_masks(map, indic_config(Some(script)).blwf_mode);
    six(&found) == six(&wanted_masks(words, script))
}

/// Whether a row's glyphs are in their order afterwards, and no glyph was inserted.
fn orders(
    alloc: Global,
    map: &hb_ot_map_t,
    script: Script,
    face: &Face,
    row: &str,
) -> Result<bool, Fail> {
    let words = part(row, 1);
    let mut buffer = buffer_of(alloc, INDIC_SHAPER, words, part(row, 3))?;
    let inserted = order(alloc, value(words, "order"), map, script, face, &mut buffer)?;
    Ok(!inserted && has_glyphs(INDIC_SHAPER, "n@mfcx", part(row, 4), &buffer))
}

fn agrees_in_font(alloc: Global, face: &Face, row: &str) -> Result<bool, Fail> {
    let script = value(part(row, 1), "script").parse::<Script>()?;
    let map = map_of(alloc, face, script)?;
    Ok(has_masks(&map, script, part(row, 1)) && orders(alloc, &map, script, face, row)?)
}

fn agrees_in(alloc: Global, fonts: &str, row: &str) -> Result<bool, Fail> {
    let face = named_face(alloc, fonts, part(row, 2))?;
    agrees_in_font(alloc, &face, row)
}

pub(crate) fn agrees(alloc: Global, row: &str) -> Result<bool, Fail> {
    let fonts = rows_of(alloc, FONTS)?;
    agrees_in(alloc, &fonts, row)
}
