//! Buffers of a row's glyphs and positions, ready for a stage.
ghost use Rattle.std.specs.Prelude.{◌≡◌, ◌<◌, false, length, IfOk, OnOk};
ghost use Rattle.std.specs.List.{list_all};
ghost use Rattle.buffer_core.specs.Sides.{items_of};
ghost use Rattle.buffer_stages.specs.Ready.{IsReady};
ghost use Rattle.shape_text.specs.Properties.{are_characters};
ghost use lib.Utf8.{scalar};

use crate::glyphs::{are_wanted, info_of, position_of};
use crate::rows::{direction_of, level_of, script_of, value};
use buffer_core::buffer::hb_buffer_t;
use buffer_glyphs::cause::ShapeCause;
use buffer_glyphs::info::hb_glyph_info_t;
use buffer_glyphs::position::GlyphPosition;
use script_categories::hb_ot_script_shaper_t;
use std::alloc::Global;
use std::test::Fail;

/// Sets a glyph of the text.
#[tactic(auto, using(crate::proofs::Ready::written_ready))]
pub fn write_glyph(info: hb_glyph_info_t, i: usize, buffer: &mut hb_buffer_t)
    requires ready { IsReady buffer.old }
    requires there { i < length buffer.old.ahead }
    ensures { IsReady buffer.new }
{
    *buffer.cur_mut(i) = info;
}

#[tactic(auto, using(crate::proofs::Ready::placed_ready))]
fn write_position(position: GlyphPosition, i: usize, buffer: &mut hb_buffer_t)
    requires ready { IsReady buffer.old }
    requires there { i < length buffer.old.positions }
    ensures { IsReady buffer.new }
{
    buffer.pos_slice_mut()[i] = position;
}

/// Adds a glyph of a row with its position.
#[tactic(auto, using(crate::proofs::Ready::added_ready))]
fn add_glyph(
    shaper: hb_ot_script_shaper_t,
    glyph: &str,
    buffer: &mut hb_buffer_t,
) -> Result<(), ShapeCause>
    requires ready { IsReady buffer.old }
    ensures { OnOk result (IsReady buffer.new) }
{
    let at = buffer.lookahead_len();
    if !buffer.add('a', 0)? {
        return Err(ShapeCause::TooLong);
    }
    if at >= buffer.lookahead_len() {
        return Err(ShapeCause::TooLong);
    }
    write_glyph(info_of(shaper, glyph), at, buffer);
    if at >= buffer.pos_slice().len() {
        return Err(ShapeCause::TooLong);
    }
    write_position(position_of(glyph), at, buffer);
    Ok(())
}

/// Sets how many nested lookups may still be applied.
#[tactic(auto, using(crate::proofs::Ready::budget_ready))]
pub fn set_budget(steps: i32, buffer: &mut hb_buffer_t)
    requires { IsReady buffer.old }
    ensures { IsReady buffer.new }
{
    buffer.set_max_ops(steps);
}

/// A buffer with a list of glyphs, and the level, the direction and the script of a row's options.
pub fn buffer_of(
    alloc: Global,
    shaper: hb_ot_script_shaper_t,
    words: &str,
    glyphs: &str,
) -> Result<hb_buffer_t, ShapeCause>
    ensures { IfOk result (λ b. IsReady b) }
{
    let mut buffer = hb_buffer_t::new(alloc);
    buffer.set_cluster_level(level_of(value(words, "level")));
    buffer.set_direction(direction_of(value(words, "direction")));
    buffer.set_script(script_of(value(words, "script")));
    for glyph in glyphs.split_terminator(',') {
        add_glyph(shaper, glyph, &mut buffer)?;
    }
    Ok(buffer)
}

/// Whether a buffer has a list of glyphs, by the fields that these letters name.
pub fn has_glyphs(
    shaper: hb_ot_script_shaper_t,
    letters: &str,
    wanted: &str,
    buffer: &hb_buffer_t,
) -> bool
    requires { buffer.now.is_open ≡ false }
{
    are_wanted(
        shaper,
        letters,
        wanted,
        buffer.info_slice(),
        buffer.pos_slice(),
    )
}

/// Sets the length limit.
pub fn limit(max_len: usize, buffer: &mut hb_buffer_t)
    requires { IsReady buffer.old }
    ensures { IsReady buffer.new }
{
    if buffer.len() <= max_len {
        buffer.set_max_len(max_len);
    }
}

/// Makes the buffer ready, with a position for each glyph.
pub(crate) fn settle(buffer: &mut hb_buffer_t) -> Result<(), Fail>
    requires { buffer.old.is_open ≡ false }
    ensures { OnOk result (IsReady buffer.new) }
{
    buffer.clear_output()?;
    if !buffer.sync()? {
        buffer.clear();
    }
    Ok(())
}

/// Whether each number is a character's.
#[tactic(auto, using(crate::proofs::Masks::items_spell))]
pub fn are_characters(buffer: &hb_buffer_t) -> bool
    requires { IsReady buffer.now }
    ensures { result ≡ are_characters (items_of buffer.now) }
{
    numbers_spell(buffer.info_slice())
}

fn numbers_spell(glyphs: &[hb_glyph_info_t]) -> bool
    ensures { result ≡ list_all (λ g. scalar g.glyph_id) glyphs.now }
{
    glyphs.iter().all(|glyph| {
        if glyph.glyph_id < 0xD800 {
            true
        } else {
            glyph.glyph_id >= 0xE000 && glyph.glyph_id < 0x11_0000
        }
    })
}
