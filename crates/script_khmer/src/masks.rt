//! The masks of the Khmer shaper in a compiled map (rustybuzz: hb/ot_shaper_khmer.rs).
ghost use Rattle.std.specs.Prelude.{◌≡◌};
ghost use Rattle.script_khmer.specs.Masks.{khmer_masks};

use crate::khmer::KhmerMasks;
use buffer_common::tag::Tag;
use layout_map::map::hb_ot_map_t;

/// The masks that the Khmer shaper sets.
pub(crate) fn khmer_masks(map: &hb_ot_map_t) -> KhmerMasks
    ensures { result ≡ khmer_masks map.now }
{
    let blwf = map.get_1_mask(Tag::from_bytes(b"blwf"));
    let abvf = map.get_1_mask(Tag::from_bytes(b"abvf"));
    let pstf = map.get_1_mask(Tag::from_bytes(b"pstf"));
    KhmerMasks {
        pref: map.get_1_mask(Tag::from_bytes(b"pref")),
        post_base: (blwf | abvf) | pstf,
        cfar: map.get_1_mask(Tag::from_bytes(b"cfar")),
    }
}
