//! Texts that are normalized by a plan, with a context and without one.
//!
//! The two ways to normalize a text have a function each, alike but for the call.
ghost use Rattle.std.specs.Prelude.{◌≡◌, false, IfOk, OnOk};
ghost use Rattle.buffer_stages.specs.Ready.{IsReady};

use crate::data::{ReadTables, TABLES, Tables, face_of};
use crate::rows::part;
use buffer_common::direction::Direction;
use buffer_common::script::LATIN;
use buffer_core::buffer::hb_buffer_t;
use buffer_glyphs::cause::ShapeCause;
use buffer_glyphs::flags::UnicodeProps;
use buffer_glyphs::info::hb_glyph_info_t;
use buffer_properties::character::{character_class, properties_of};
use buffer_unicode_tables::UnicodeTables;
use layout_face::Face;
use script_plan::plan::hb_ot_shape_plan_t;
use shape_pipeline::hb_ot_any_shaper_t;
use shape_pipeline::normalize_context::{_hb_ot_shape_normalize, hb_ot_shape_normalize_context_t};
use std::alloc::Global;
use std::process::Abort;
use std::test::Fail;

// Each row has a font, a text, and the text normalized for the font, which has a letter with an acute or the letter and
// its marks alone. By UAX 15 a letter composes with an acute after it (D117), also across a dot below, which has a
// lesser class (D115); the dot precedes the acute in canonical order (D109); and a composed letter decomposes into both
// (D68).
static ROWS: &str = "{\"cmap\":[[97,1],[225,8],[769,9],[803,10]]};a\u{301}\u{E1};\u{E1}\u{E1}
{\"cmap\":[[97,1],[225,8],[769,9],[803,10]]};a\u{301}\u{323};\u{E1}\u{323}
{\"cmap\":[[97,1],[769,9],[803,10]]};a\u{301}\u{E1};a\u{301}a\u{301}
{\"cmap\":[[97,1],[769,9],[803,10]]};\u{E1}\u{323};a\u{323}\u{301}";

fn describe(tables: &UnicodeTables, glyphs: &mut [hb_glyph_info_t]) {
    for glyph in glyphs.iter_mut() {
        let Some(character) = char::from_u32(glyph.glyph_id) else {
            continue;
        };
        glyph.unicode_props = UnicodeProps(properties_of(character));
        glyph.modified_combining_class = character_class(tables, character);
    }
}

/// Opens and closes an output, which leaves a position for each glyph, and the cursor before all.
fn settle(buffer: &mut hb_buffer_t) -> Result<(), ShapeCause>
    requires { buffer.old.is_open ≡ false }
    ensures { OnOk result (IsReady buffer.new) }
{
    buffer.clear_output()?;
    if !buffer.sync()? {
        return Err(ShapeCause::TooLong);
    }
    Ok(())
}

/// The characters of a text, with their properties and classes.
fn prepared(alloc: Global, tables: &UnicodeTables, text: &str) -> Result<hb_buffer_t, ShapeCause>
    ensures { IfOk result (λ b. IsReady b) }
{
    let mut buffer = hb_buffer_t::new(alloc);
    if !buffer.push_str(text)? {
        return Err(ShapeCause::TooLong);
    }
    describe(tables, buffer.info_slice_mut());
    settle(&mut buffer)?;
    Ok(buffer)
}

/// Whether a buffer has the characters of a text.
fn spells(buffer: &hb_buffer_t, text: &str) -> bool
    requires { buffer.now.is_open ≡ false }
{
    buffer
        .info_slice()
        .iter()
        .map(|glyph| glyph.glyph_id)
        .eq(text.chars().map(u32::from))
}

/// Whether a text becomes its normal form in a context.
fn is_normalized_in_context(
    alloc: Global,
    face: &Face,
    tables: Tables<'_>,
    plan: &hb_ot_shape_plan_t<hb_ot_any_shaper_t>,
    text: &str,
    normal: &str,
) -> Result<bool, ShapeCause> {
    let mut buffer = prepared(alloc, tables.characters, text)?;
    let mut context = hb_ot_shape_normalize_context_t {
        plan,
        buffer: &mut buffer,
        face,
        shape_data: tables.data(),
    };
    context.normalize(alloc)?;
    Ok(spells(&buffer, normal))
}

/// Whether a text becomes its normal form without a context.
fn is_normalized_without_context(
    alloc: Global,
    face: &Face,
    tables: Tables<'_>,
    plan: &hb_ot_shape_plan_t<hb_ot_any_shaper_t>,
    text: &str,
    normal: &str,
) -> Result<bool, ShapeCause> {
    let mut buffer = prepared(alloc, tables.characters, text)?;
    _hb_ot_shape_normalize(alloc, plan, &mut buffer, face, tables.data())?;
    Ok(spells(&buffer, normal))
}

fn is_normalized(
    alloc: Global,
    face: &Face,
    tables: Tables<'_>,
    text: &str,
    normal: &str,
) -> Result<bool, Fail> {
    let plan = hb_ot_shape_plan_t::new(
        alloc,
        face,
        tables.data(),
        Direction::LeftToRight,
        Some(LATIN),
        None,
        &[],
    )?;
    let alone = is_normalized_without_context(alloc, face, tables, &plan, text, normal)?;
    let in_context = is_normalized_in_context(alloc, face, tables, &plan, text, normal)?;
    Ok(alone && in_context)
}

fn is_followed(alloc: Global, tables: Tables<'_>, row: &str) -> Result<bool, Fail> {
    let face = face_of(alloc, part(row, 0))?;
    is_normalized(alloc, &face, tables, part(row, 1), part(row, 2))
}

fn rows_are_followed(rt: &impl Abort, alloc: Global, tables: Tables<'_>) -> Result<(), Fail> {
    for row in ROWS.lines() {
        let is_followed = is_followed(alloc, tables, row)?;
        assert!(rt; is_followed, "{row}");
    }
    Ok(())
}

#[test]
fn texts_are_normalized(rt: HostRuntime) -> Result<(), Fail> {
    let tables = ReadTables::from_text(rt.alloc(), TABLES)?;
    rows_are_followed(&rt, rt.alloc(), tables.borrowed())
}
