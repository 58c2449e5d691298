//! What an apply context answers at the cursor: its replacements, and a nested substitution.
//!
//! `nested_positions` has the same test of GPOS's nested lookups, whose call is another trait's.
ghost use Rattle.buffer_stages.specs.Ready.{IsReady};

use crate::buffers::{buffer_of, set_budget};
use crate::stages::face_of;
use buffer_core::buffer::hb_buffer_t;
use buffer_glyphs::cause::ShapeCause;
use buffer_glyphs::flags::GlyphPropsFlags;
use buffer_stages::glyphs::are_glyphs;
use layout_face::Face;
use layout_gsub::context::GlyphReplacement;
use layout_map_features::per_table::TableIndex;
use layout_match::hb_ot_apply_context_t;
use layout_substitution::nesting::Nesting;
use script_categories::hb_ot_script_shaper_t::ARABIC_SHAPER;
use std::alloc::Global;
use std::process::Abort;
use std::test::Fail;

/// A font whose one lookup of substitution gives glyph 8 for glyph 7.
pub(crate) static FONT: &str =
    r#"{"gsub":{"lookups":[{"type":"single","subtables":[[[7,8]]]}]},"gpos":{"lookups":[
{"type":"single","subtables":[[[7,[1,0,0,0]]]]}]}}"#;

/// Two glyphs.
pub(crate) static TEXT: &str = "7@0, 9@1";

fn replace(face: &Face, kind: &str, buffer: &mut hb_buffer_t) -> Result<bool, ShapeCause>
    requires { IsReady buffer.old }
{
    let ctx = hb_ot_apply_context_t::new(TableIndex::GSUB, face);
    buffer.clear_output()?;
    if buffer.lookahead_len() == 0 {
        return Ok(false);
    }
    match kind {
        "ligature" => ctx.replace_glyph_with_ligature(8, GlyphPropsFlags::LIGATURE, buffer),
        "component" => {
            ctx.output_glyph_for_component(8, 1, buffer)?;
            Ok(true)
        }
        _ => ctx.replace_glyph(8, buffer),
    }
}

fn is_replaced(alloc: Global, face: &Face, kind: &str) -> Result<bool, Fail> {
    let mut buffer = buffer_of(alloc, ARABIC_SHAPER, "", TEXT)?;
    Ok(replace(face, kind, &mut buffer)?)
}

fn glyphs_are_replaced_in_font(rt: &impl Abort, alloc: Global, face: &Face) -> Result<(), Fail> {
    for kind in ["ligature", "component", "glyph"] {
        let replaced = is_replaced(alloc, face, kind)?;
        assert!(rt; replaced, "{kind}");
    }
    Ok(())
}

#[test]
fn glyphs_are_replaced(rt: HostRuntime) -> Result<(), Fail> {
    let face = face_of(rt.alloc(), FONT)?;
    glyphs_are_replaced_in_font(&rt, rt.alloc(), &face)
}

fn nest(face: &Face, index: u16, buffer: &mut hb_buffer_t) -> Result<bool, ShapeCause>
    requires { IsReady buffer.old }
{
    if !are_glyphs(buffer) {
        return Ok(false);
    }
    let mut ctx = hb_ot_apply_context_t::new(TableIndex::GSUB, face);
    buffer.clear_output()?;
    if buffer.lookahead_len() == 0 {
        return Ok(false);
    }
    ctx.recurse(index, buffer)
}

/// Whether the lookup at an index acts at the first glyph with `steps` steps of the budget, and how many are then
/// left.
fn acts(alloc: Global, face: &Face, index: u16, steps: i32) -> Result<(bool, i32), Fail> {
    let mut buffer = buffer_of(alloc, ARABIC_SHAPER, "", TEXT)?;
    set_budget(steps, &mut buffer);
    let acted = nest(face, index, &mut buffer)?;
    Ok((acted, buffer.max_ops()))
}

// A nested lookup takes one step, also where there is no lookup at the index; without a step it does nothing.
fn substitutions_nest_in_font(rt: &impl Abort, alloc: Global, face: &Face) -> Result<(), Fail> {
    let first = acts(alloc, face, 0, 1)?;
    let missing = acts(alloc, face, 1, 2)?;
    let spent = acts(alloc, face, 0, 0)?;
    assert!(rt; first == (true, 0) && missing == (false, 1) && spent == (false, 0));
    Ok(())
}

#[test]
fn substitutions_nest(rt: HostRuntime) -> Result<(), Fail> {
    let face = face_of(rt.alloc(), FONT)?;
    substitutions_nest_in_font(&rt, rt.alloc(), &face)
}
