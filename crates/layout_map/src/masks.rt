//! The masks of the forms' features that letters of joining scripts have (rustybuzz: hb/ot_shaper_arabic.rs,
//! data_create_arabic).
ghost use Rattle.std.specs.Prelude.{◌≡◌};
ghost use Rattle.layout_map.specs.Masks.{HaveNoFlag, joining_masks};

use crate::map::hb_ot_map_t;
use buffer_common::tag::Tag;

/// The masks of ISOL, FINA, FIN2, FIN3, MEDI, MED2 and INIT, in this order.
pub fn joining_masks(map: &hb_ot_map_t) -> [u32; 7]
    ensures masks { result ≡ joining_masks map.now }
    ensures flagless { HaveNoFlag result }
{
    let isol = map.get_1_mask(Tag::from_bytes(b"isol"));
    let fina = map.get_1_mask(Tag::from_bytes(b"fina"));
    let fin2 = map.get_1_mask(Tag::from_bytes(b"fin2"));
    let fin3 = map.get_1_mask(Tag::from_bytes(b"fin3"));
    let medi = map.get_1_mask(Tag::from_bytes(b"medi"));
    let med2 = map.get_1_mask(Tag::from_bytes(b"med2"));
    let init = map.get_1_mask(Tag::from_bytes(b"init"));
    [isol, fina, fin2, fin3, medi, med2, init]
}
