//! The masks of Hangul jamo in a compiled map, the shaper's setup_masks (rustybuzz: hb/ot_shaper_hangul.rs).
ghost use Rattle.std.specs.Prelude.{◌≡◌};
ghost use Rattle.buffer_core.specs.Readings.{always};
ghost use Rattle.buffer_stages.specs.Ready.{IsReady};
ghost use Rattle.buffer_stages.specs.Stages.{IsFollowed, with_items_mapped};
ghost use Rattle.script_hangul.specs.Masks.{AreFlagless, with_letter_mask};
ghost use Rattle.script_hangul.specs.MapMasks.{jamo_masks};

use crate::masks::{self, JamoMasks};
use buffer_common::tag::Tag;
use buffer_core::buffer::hb_buffer_t;
use layout_map::map::hb_ot_map_t;

/// Adds to the mask of each jamo the mask of its feature. It takes linear time and no memory.
pub fn setup_masks(map: &hb_ot_map_t, buffer: &mut hb_buffer_t)
    requires ready { IsReady buffer.old }
    ensures { IsFollowed (always (with_items_mapped (with_letter_mask (jamo_masks map.now)))) buffer.old buffer.new }
{
    let masks = jamo_masks(map);
    masks::setup_masks(&masks, buffer);
}

fn jamo_masks(map: &hb_ot_map_t) -> JamoMasks
    ensures masks { result ≡ jamo_masks map.now }
    ensures flagless { AreFlagless result }
{
    JamoMasks {
        ljmo: map.get_1_mask(Tag::from_bytes(b"ljmo")),
        vjmo: map.get_1_mask(Tag::from_bytes(b"vjmo")),
        tjmo: map.get_1_mask(Tag::from_bytes(b"tjmo")),
    }
}
