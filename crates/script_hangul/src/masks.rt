//! The masks of Hangul jamo (rustybuzz: hb/ot_shaper_hangul.rs).
ghost use Rattle.std.specs.Prelude.{◌≡◌, ◌==◌, ◌&&◌};
ghost use Rattle.std.specs.Int.RustNames.{bit_and};
ghost use Rattle.buffer_glyphs.specs.Items.{item_of};
ghost use Rattle.buffer_glyphs.specs.Origins.{origin_of};
ghost use Rattle.buffer_core.specs.Readings.{always};
ghost use Rattle.buffer_stages.specs.Ready.{IsReady};
ghost use Rattle.script_hangul.specs.Masks.{AreFlagless, mask_of, with_letter_mask};
ghost use Rattle.buffer_stages.specs.Stages.{IsFollowed, with_items_mapped};

use crate::performing::{LJMO, TJMO, VJMO};
use buffer_core::buffer::hb_buffer_t;
use buffer_glyphs::info::{hb_glyph_info_t, hb_mask_t};
use buffer_stages::glyphs::map_glyphs;

/// The masks of the features ljmo, vjmo and tjmo.
#[derive(Clone, Copy)]
pub struct JamoMasks {
    pub ljmo: hb_mask_t,
    pub vjmo: hb_mask_t,
    pub tjmo: hb_mask_t,
}

/// Adds to the mask of each jamo the mask of its feature (`setup_masks`). It takes linear time and no memory.
#[tactic(auto, using(crate::proofs::Masked::none_masked))]
pub fn setup_masks(masks: &JamoMasks, buffer: &mut hb_buffer_t)
    requires ready { IsReady buffer.old }
    requires flagless { AreFlagless masks.now }
    ensures { IsFollowed (always (with_items_mapped (with_letter_mask masks.now))) buffer.old buffer.new }
{
    // Most fonts with syllables lack the three features, and then no glyph changes.
    if are_zero(masks) {
        return;
    }
    map_glyphs(buffer, |glyph| with_letter_mask(masks, glyph));
}

fn are_zero(masks: &JamoMasks) -> bool
    ensures { result ≡ (masks.now.ljmo == 0 && (masks.now.vjmo == 0 && masks.now.tjmo == 0)) }
{
    masks.ljmo == 0 && masks.vjmo == 0 && masks.tjmo == 0
}

/// A glyph with the mask of its jamo feature.
#[tactic(auto, using(crate::proofs::Masked::masked_item, crate::proofs::Masked::masked_origin))]
fn with_letter_mask(masks: &JamoMasks, glyph: &hb_glyph_info_t) -> hb_glyph_info_t
    requires flagless { AreFlagless masks.now }
    ensures item { item_of result ≡ with_letter_mask masks.now (item_of glyph.now) }
    ensures origin { origin_of result ≡ origin_of glyph.now }
{
    hb_glyph_info_t {
        mask: glyph.mask | mask_of(masks, glyph.auxiliary),
        ..*glyph
    }
}

/// The mask of a jamo feature.
fn mask_of(masks: &JamoMasks, kind: u8) -> hb_mask_t
    ensures { result ≡ mask_of masks.now kind }
{
    match kind {
        LJMO => masks.ljmo,
        VJMO => masks.vjmo,
        TJMO => masks.tjmo,
        _ => 0,
    }
}
