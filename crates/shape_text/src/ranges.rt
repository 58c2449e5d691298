//! Features that the caller requests for a range of a text (rustybuzz: hb/ot_shape.rs).
ghost use Rattle.std.specs.Prelude.{◌≡◌};
ghost use Rattle.buffer_glyphs.specs.Items.{clusters};
ghost use Rattle.buffer_core.specs.Readings.{always};
ghost use Rattle.buffer_core.specs.Sides.{all_glyphs, items_of};
ghost use Rattle.buffer_stages.specs.Ready.{IsReady};
ghost use Rattle.buffer_stages.specs.Stages.{Becomes, IsFollowed};
ghost use Rattle.shape_text.specs.Ranges.{with_range, with_ranges};

use buffer_core::buffer::hb_buffer_t;
use buffer_tags::feature::Feature;
use layout_map::map::hb_ot_map_t;

/// Sets the value of each feature in the masks of glyphs whose cluster is in its range, feature by feature; features
/// for all glyphs are skipped. It takes time linear in the glyphs for each feature, and no memory.
#[tactic(auto, using(crate::proofs::Ranged::begins, crate::proofs::Ranged::goes_on_at, crate::proofs::Ranged::ends))]
pub fn set_ranged_masks(map: &hb_ot_map_t, features: &[Feature], buffer: &mut hb_buffer_t)
    requires ready { IsReady buffer.old }
    ensures { IsFollowed (always (with_ranges map.now features.now (clusters (all_glyphs buffer.old))))
        buffer.old buffer.new }
{
    for feature in features {
        set_range(map, feature, buffer);
    }
}

#[tactic(auto, using(crate::proofs::Ranged::set_becomes))]
fn set_range(map: &hb_ot_map_t, feature: &Feature, buffer: &mut hb_buffer_t)
    requires ready { IsReady buffer.old }
    ensures { Becomes (with_range map.now feature.now (clusters (all_glyphs buffer.old)) (items_of buffer.old))
        buffer.old.positions buffer.old buffer.new }
{
    if feature.is_global() {
        return;
    }
    let (mask, shift) = map.get_mask(feature.tag);
    buffer.set_masks(feature.value << shift, mask, feature.start, feature.end);
}
