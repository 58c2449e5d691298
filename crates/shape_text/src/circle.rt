//! The dotted circle before a text that begins with a mark, insert_dotted_circle (rustybuzz: hb/ot_shape.rs).
ghost use Rattle.std.specs.Prelude.{◌≡◌, ◌≢◌, ◌<◌, ◌≤◌, ◌+◌, length, bit_or, IfErr, OnOk, Err};
ghost use Rattle.buffer_glyphs.specs.Items.{item_of, strip};
ghost use Rattle.buffer_core.specs.Sides.{items_of, all_glyphs};
ghost use Rattle.buffer_stages.specs.Ready.{IsReady, HasFirst};
ghost use Rattle.buffer_properties.specs.Characters.{is_mark};
ghost use Rattle.shape_text.specs.Circle.{flags_want_circle, begins_with_mark, first_circle, glyph_circle, needs_circle, with_circle_put};
ghost use Rattle.buffer_properties.specs.Properties.{scratch_flags_of};
ghost use Rattle.buffer_stages.specs.Stages.{DoesStage};

use bitflags::Flags;
use buffer_common::constants::{BufferFlags, hb_buffer_scratch_flags_t};
use buffer_core::buffer::hb_buffer_t;
use buffer_glyphs::cause::ShapeCause;
use buffer_glyphs::info::hb_glyph_info_t;
use buffer_properties::categories::is_mark;
use buffer_properties::info::init_unicode_props;
use buffer_unicode_tables::UnicodeTables;
use layout_face::Face;

/// U+25CC DOTTED CIRCLE, the base of a mark that has none.
pub const DOTTED_CIRCLE: char = '\u{25CC}';

/// Inserts a dotted circle before a text that begins with a mark (`insert_dotted_circle`), where BEGINNING_OF_TEXT is
/// set, there is no context before the text, DO_NOT_INSERT_DOTTED_CIRCLE is not set, and the font has the glyph. The
/// circle has the first character's cluster and mask.
///
/// # Errors
///
/// `TooLong` where the text would have more characters than the buffer may hold, or lack of memory.
pub fn insert_dotted_circle(
    face: &Face,
    tables: &UnicodeTables,
    buffer: &mut hb_buffer_t,
) -> Result<(), ShapeCause>
    requires ready { IsReady buffer.old }
    ensures { DoesStage (first_circle tables.now face.now buffer.old.flags buffer.old.pre_context) result buffer.old
        buffer.new }
{
    if !needs_circle(face, buffer) {
        return Ok(());
    }
    put_circle(tables, buffer)?;
    Ok(())
}

fn needs_circle(face: &Face, buffer: &hb_buffer_t) -> bool
    requires ready { IsReady buffer.now }
    ensures { result ≡ needs_circle buffer.now.flags buffer.now.pre_context face.now (items_of buffer.now) }
{
    asks_circle(buffer.flags())
        && buffer.pre_context().is_empty()
        && begins_with_mark(buffer.info_slice())
        && face.has_glyph(DOTTED_CIRCLE)
}

fn asks_circle(flags: BufferFlags) -> bool
    ensures { result ≡ flags_want_circle flags }
{
    flags.contains(BufferFlags::BEGINNING_OF_TEXT)
        && !flags.contains(BufferFlags::DO_NOT_INSERT_DOTTED_CIRCLE)
}

fn begins_with_mark(glyphs: &[hb_glyph_info_t]) -> bool
    ensures { result ≡ begins_with_mark (strip glyphs.now) }
{
    match glyphs.first() {
        Some(first) => is_mark(first),
        None => false,
    }
}

/// Inserts a circle before the first glyph.
fn put_circle(tables: &UnicodeTables, buffer: &mut hb_buffer_t) -> Result<(), ShapeCause>
    requires first { HasFirst buffer.old }
    ensures ok { OnOk result (buffer.new ≡ with_circle_put tables.now buffer.old) }
    ensures some { OnOk result (0 < length (all_glyphs buffer.old)) }
    ensures fits { OnOk result (length (all_glyphs buffer.old) + 1 ≤ buffer.old.max_len) }
    ensures err { IfErr result (λ e. e ≢ ShapeCause.OutOfMemory
        → (e ≡ ShapeCause.TooLong) × (buffer.old.max_len < length (all_glyphs buffer.old) + 1)) }
{
    let mut scratch_flags = buffer.scratch_flags();
    let circle = circle_like(tables, buffer.cur(0), &mut scratch_flags);
    buffer.set_scratch_flags(scratch_flags);
    buffer.clear_output()?;
    if !buffer.output_info(circle)? {
        return Err(ShapeCause::TooLong);
    }
    if !buffer.sync()? {
        return Err(ShapeCause::TooLong);
    }
    Ok(())
}

/// A circle with a glyph's cluster and mask.
fn circle_like(
    tables: &UnicodeTables,
    glyph: &hb_glyph_info_t,
    scratch_flags: &mut hb_buffer_scratch_flags_t,
) -> hb_glyph_info_t
    ensures circle { result ≡ glyph_circle tables.now glyph.now }
    ensures scratch_flags { scratch_flags.new ≡ bit_or scratch_flags.old (scratch_flags_of DOTTED_CIRCLE) }
{
    let mut circle = hb_glyph_info_t {
        glyph_id: u32::from(DOTTED_CIRCLE),
        mask: glyph.mask,
        cluster: glyph.cluster,
        ..hb_glyph_info_t::default()
    };
    init_unicode_props(&mut circle, tables, scratch_flags);
    circle
}
