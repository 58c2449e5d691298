//! The pauses of the Khmer shaper (rustybuzz: hb/ot_shaper_khmer.rs).
ghost use Rattle.std.specs.Prelude.{◌≡◌, false, length, nat_lt, Ok, IfOk};
ghost use Rattle.buffer_core.specs.Sides.{items_of};
ghost use Rattle.buffer_stages.specs.Ready.{DoesGlyphStage, HoldsGlyphs};
ghost use Rattle.buffer_stages.specs.Pauses.{BringsNoGlyph};
ghost use Rattle.buffer_stages.specs.Settings.{text_settings};
ghost use Rattle.script_khmer.specs.Masks.{khmer_masks};
ghost use Rattle.script_khmer.specs.Pauses.{khmer_order};

use crate::khmer::{self, KhmerMasks};
use crate::masks::khmer_masks;
use buffer_core::buffer::hb_buffer_t;
use buffer_glyphs::cause::ShapeCause;
use layout_face::Face;
use layout_map::map::hb_ot_map_t;
use script_categories::ot_category_t::{OT_DOTTEDCIRCLE, OT_Repha};
use script_categories::syllable_kinds::khmer::BROKEN_CLUSTER;
use script_syllabic::circles::insert_dotted_circles;

/// Inserts a dotted circle into each broken syllable, and reorders each syllable (`reorder`), with the map's masks.
/// Returns whether circles were inserted.
///
/// # Errors
///
/// `TooLong` where the text would have more glyphs than the buffer may hold, or lack of memory.
pub fn reorder_khmer(
    map: &hb_ot_map_t,
    face: &Face,
    buffer: &mut hb_buffer_t,
) -> Result<bool, ShapeCause>
    requires glyphs { HoldsGlyphs buffer.old }
    ensures stage { DoesGlyphStage (khmer_order face.now (text_settings buffer.old).flags (khmer_masks map.now)) result
        buffer.old buffer.new }
    ensures longer { IfOk result (λ inserted. inserted ≡ nat_lt (length (items_of buffer.old)) (length (items_of buffer.new))) }
    ensures brings_none { result ≡ Ok false → BringsNoGlyph (items_of buffer.old) (items_of buffer.new) }
{
    let masks = khmer_masks(map);
    reorder_with(face, &masks, buffer)
}

fn reorder_with(
    face: &Face,
    masks: &KhmerMasks,
    buffer: &mut hb_buffer_t,
) -> Result<bool, ShapeCause>
    requires glyphs { HoldsGlyphs buffer.old }
    ensures stage { DoesGlyphStage (khmer_order face.now (text_settings buffer.old).flags masks.now) result buffer.old
        buffer.new }
    ensures longer { IfOk result (λ inserted. inserted ≡ nat_lt (length (items_of buffer.old)) (length (items_of buffer.new))) }
    ensures brings_none { result ≡ Ok false → BringsNoGlyph (items_of buffer.old) (items_of buffer.new) }
{
    let inserted = insert_dotted_circles(
        face,
        buffer,
        BROKEN_CLUSTER,
        OT_DOTTEDCIRCLE,
        Some(OT_Repha),
        None,
    )?;
    khmer::reorder_khmer(masks, buffer)?;
    Ok(inserted)
}
