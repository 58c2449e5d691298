//! The third round: composes marks with their base (rustybuzz: hb/ot_shape_normalize.rs).
ghost use Rattle.std.specs.Prelude.{◌≡◌, ◌<◌, ◌≤◌, length, drop, slice_get, Some, IfErr, OnOk};
ghost use Rattle.buffer_glyphs.specs.Items.{Item, strip};
ghost use Rattle.buffer_core.specs.Sides.{all_glyphs, after_next_glyphs, origins_by, origins_of};
ghost use Rattle.buffer_core.specs.Lending.{with_glyph_ahead};
ghost use Rattle.buffer_core.specs.Moving.{after_move_to};
ghost use Rattle.buffer_properties.specs.Characters.{standing_for, with_glyph};
ghost use Rattle.buffer_stages.specs.Appending.{frame_of};
ghost use Rattle.shape_normalize.specs.Composed.{composition_events, HasRoom, IsComposed, IsWritten};

use crate::characters::becoming;
use crate::normalizing::Normalizing;
use buffer_core::buffer::hb_buffer_t;
use buffer_glyphs::cause::ShapeCause;
use buffer_glyphs::info::hb_glyph_info_t;

/// Outputs the current glyph; the output has room for it.
#[tactic(auto, using(crate::proofs::Room::fits_next_glyph))]
pub(crate) fn pass_glyph(buffer: &mut hb_buffer_t) -> Result<(), ShapeCause>
    requires room { HasRoom buffer.old }
    requires there { 0 < length buffer.old.ahead }
    ensures moved { OnOk result (buffer.new ≡ after_next_glyphs 1 buffer.old) }
    ensures kept { OnOk result (all_glyphs buffer.new ≡ all_glyphs buffer.old) }
    ensures err { IfErr result (λ e. e ≡ ShapeCause.OutOfMemory) }
{
    if !buffer.next_glyph()? {
        return Err(ShapeCause::TooLong);
    }
    Ok(())
}

/// Outputs the next `count` glyphs; the output has room for them.
#[tactic(auto, using(crate::proofs::Room::fits_next_ones))]
pub(crate) fn pass_glyphs(count: usize, buffer: &mut hb_buffer_t) -> Result<(), ShapeCause>
    requires room { HasRoom buffer.old }
    requires there { count ≤ length buffer.old.ahead }
    ensures moved { OnOk result (buffer.new ≡ after_next_glyphs count buffer.old) }
    ensures kept { OnOk result (all_glyphs buffer.new ≡ all_glyphs buffer.old) }
    ensures err { IfErr result (λ e. e ≡ ShapeCause.OutOfMemory) }
{
    if !buffer.next_glyphs(count)? {
        return Err(ShapeCause::TooLong);
    }
    Ok(())
}

/// Moves the cursor to an index of the list; both sides have room for the whole list.
#[tactic(auto, using(crate::proofs::Room::fits_going))]
fn move_cursor(at: usize, buffer: &mut hb_buffer_t) -> Result<(), ShapeCause>
    requires room { HasRoom buffer.old }
    requires within { at ≤ length (all_glyphs buffer.old) }
    ensures moved { OnOk result (buffer.new ≡ after_move_to at buffer.old) }
    ensures kept { OnOk result (all_glyphs buffer.new ≡ all_glyphs buffer.old) }
    ensures err { IfErr result (λ e. e ≡ ShapeCause.OutOfMemory) }
{
    if !buffer.move_to(at)? {
        return Err(ShapeCause::TooLong);
    }
    Ok(())
}

/// Merges the output's clusters from a starter to the current mark, and deletes the mark.
fn take_mark(starter: usize, buffer: &mut hb_buffer_t) -> Result<(), ShapeCause>
    requires room { HasRoom buffer.old }
    requires there { 0 < length buffer.old.ahead }
    requires behind { starter < length buffer.old.behind }
    ensures happened { OnOk result (origins_of buffer.new
        ≡ origins_by (composition_events starter (length buffer.old.behind)) buffer.old) }
    ensures behind { OnOk result (strip buffer.new.behind ≡ strip buffer.old.behind) }
    ensures ahead { OnOk result (strip buffer.new.ahead ≡ drop 1 (strip buffer.old.ahead)) }
    ensures frame { OnOk result (frame_of buffer.new ≡ frame_of buffer.old) }
    ensures err { IfErr result (λ e. e ≡ ShapeCause.OutOfMemory) }
{
    let count = buffer.out_len();
    pass_glyph(buffer)?;
    let end = buffer.out_len();
    buffer.merge_out_clusters(starter, end);
    move_cursor(count, buffer)?;
    buffer.skip_glyph();
    Ok(())
}

/// Sets the i-th glyph from the cursor on.
pub(crate) fn write_ahead(i: usize, info: hb_glyph_info_t, buffer: &mut hb_buffer_t)
    requires { i < length buffer.old.ahead }
    ensures { buffer.new ≡ with_glyph_ahead i info buffer.old }
{
    *buffer.cur_mut(i) = info;
}

/// Sets a glyph of the output. The cursor moves there and back, so that what is known of the clusters' order stays
/// known.
fn write_out(at: usize, info: hb_glyph_info_t, buffer: &mut hb_buffer_t) -> Result<(), ShapeCause>
    requires room { HasRoom buffer.old }
    requires there { at < length buffer.old.behind }
    ensures ok { OnOk result (IsWritten at info buffer.old buffer.new) }
    ensures err { IfErr result (λ e. e ≡ ShapeCause.OutOfMemory) }
{
    let count = buffer.out_len();
    move_cursor(at, buffer)?;
    write_ahead(0, info, buffer);
    move_cursor(count, buffer)?;
    Ok(())
}

/// The glyph of the output at an index.
pub(crate) fn out_at(at: usize, buffer: &hb_buffer_t) -> hb_glyph_info_t
    requires { at < length buffer.now.behind }
    ensures { slice_get buffer.now.behind at ≡ Some result }
{
    buffer.out_info()[at]
}

/// Composes the current mark with a glyph of the output. It takes time linear in the number of glyphs between them.
pub(crate) fn compose_mark<N: Normalizing>(
    by: &N,
    starter: usize,
    u: char,
    glyph: u32,
    buffer: &mut hb_buffer_t,
) -> Result<(), ShapeCause>
    requires room { HasRoom buffer.old }
    requires there { 0 < length buffer.old.ahead }
    requires behind { starter < length buffer.old.behind }
    ensures ok { OnOk result ((x : Item) → slice_get (strip buffer.old.behind) starter ≡ Some x
        → IsComposed starter (with_glyph glyph (standing_for (N.normalizer by.now).tables u x))
        buffer.old buffer.new) }
    ensures err { IfErr result (λ e. e ≡ ShapeCause.OutOfMemory) }
{
    take_mark(starter, buffer)?;
    let last = out_at(starter, buffer);
    let info = becoming(by, &last, u, glyph);
    write_out(starter, info, buffer)?;
    Ok(())
}
