//! The pauses of the Myanmar shaper (rustybuzz: hb/ot_shaper_myanmar.rs).
ghost use Rattle.std.specs.Prelude.{◌≡◌, false, length, nat_lt, Ok, IfOk};
ghost use Rattle.buffer_core.specs.Sides.{items_of};
ghost use Rattle.buffer_stages.specs.Ready.{DoesGlyphStage, HoldsGlyphs};
ghost use Rattle.buffer_stages.specs.Pauses.{BringsNoGlyph};
ghost use Rattle.buffer_stages.specs.Settings.{text_settings};
ghost use Rattle.script_myanmar.specs.Pauses.{myanmar_order};

use crate::myanmar;
use buffer_core::buffer::hb_buffer_t;
use buffer_glyphs::cause::ShapeCause;
use layout_face::Face;
use script_categories::ot_category_t::OT_DOTTEDCIRCLE;
use script_categories::syllable_kinds::myanmar::BROKEN_CLUSTER;
use script_syllabic::circles::insert_dotted_circles;
use std::alloc::Global;

/// Inserts a dotted circle into each broken syllable, and reorders each syllable (`reorder_myanmar`). Returns whether
/// circles were inserted.
///
/// # Errors
///
/// `TooLong` where the text would have more glyphs than the buffer may hold, or lack of memory.
pub fn reorder_myanmar(
    alloc: Global,
    face: &Face,
    buffer: &mut hb_buffer_t,
) -> Result<bool, ShapeCause>
    requires glyphs { HoldsGlyphs buffer.old }
    ensures stage { DoesGlyphStage (myanmar_order face.now (text_settings buffer.old).flags) result buffer.old buffer.new }
    ensures longer { IfOk result (λ inserted. inserted ≡ nat_lt (length (items_of buffer.old)) (length (items_of buffer.new))) }
    ensures brings_none { result ≡ Ok false → BringsNoGlyph (items_of buffer.old) (items_of buffer.new) }
{
    let inserted = insert_dotted_circles(
        face,
        buffer,
        BROKEN_CLUSTER,
        OT_DOTTEDCIRCLE,
        None,
        None,
    )?;
    myanmar::reorder_myanmar(alloc, buffer)?;
    Ok(inserted)
}
