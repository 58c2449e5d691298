//! A nested positioning as a call of the apply context.
//!
//! `replacements` has the same test of GSUB's nested lookups, whose call is another trait's.
ghost use Rattle.buffer_stages.specs.Ready.{IsReady};

use crate::buffers::{buffer_of, set_budget};
use crate::replacements::{FONT, TEXT};
use crate::stages::face_of;
use buffer_core::buffer::hb_buffer_t;
use buffer_glyphs::cause::ShapeCause;
use buffer_stages::glyphs::are_glyphs;
use layout_face::Face;
use layout_map_features::per_table::TableIndex;
use layout_match::hb_ot_apply_context_t;
use layout_positioning::nesting::Nesting;
use script_categories::hb_ot_script_shaper_t::ARABIC_SHAPER;
use std::alloc::Global;
use std::process::Abort;
use std::test::Fail;

fn nest(face: &Face, index: u16, buffer: &mut hb_buffer_t) -> Result<bool, ShapeCause>
    requires { IsReady buffer.old }
{
    if !are_glyphs(buffer) {
        return Ok(false);
    }
    let ctx = hb_ot_apply_context_t::new(TableIndex::GPOS, face);
    if buffer.lookahead_len() == 0 {
        return Ok(false);
    }
    ctx.recurse(index, buffer)
}

/// Whether the lookup at an index acts at the first glyph with `steps` steps of the budget, and how many are then
/// left.
fn acts(alloc: Global, face: &Face, index: u16, steps: i32) -> Result<(bool, i32), Fail> {
    let mut buffer = buffer_of(alloc, ARABIC_SHAPER, "", TEXT)?;
    set_budget(steps, &mut buffer);
    let acted = nest(face, index, &mut buffer)?;
    Ok((acted, buffer.max_ops()))
}

// A nested lookup takes one step, also where there is no lookup at the index; without a step it does nothing.
fn positionings_nest_in_font(rt: &impl Abort, alloc: Global, face: &Face) -> Result<(), Fail> {
    let first = acts(alloc, face, 0, 1)?;
    let missing = acts(alloc, face, 1, 2)?;
    let spent = acts(alloc, face, 0, 0)?;
    assert!(rt; first == (true, 0) && missing == (false, 1) && spent == (false, 0));
    Ok(())
}

#[test]
fn positionings_nest(rt: HostRuntime) -> Result<(), Fail> {
    let face = face_of(rt.alloc(), FONT)?;
    positionings_nest_in_font(&rt, rt.alloc(), &face)
}
