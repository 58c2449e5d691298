//! The masks of Arabic letters, the shaper's data_create and setup_masks (rustybuzz: hb/ot_shaper_arabic.rs).
ghost use Rattle.std.specs.Prelude.{◌≡◌, codes};
ghost use Rattle.layout_map.specs.Masks.{has_mask, joining_masks};
ghost use Rattle.buffer_stages.specs.Ready.{IsReady};
ghost use Rattle.buffer_stages.specs.Stages.{IsFollowed};
ghost use Rattle.script_joining.specs.Glyphs.{AreFlagless};
ghost use Rattle.script_joining.specs.Joining.{letters_joined};

use buffer_common::script::Script;
use buffer_common::tag::Tag;
use buffer_core::buffer::hb_buffer_t;
use buffer_glyphs::info::hb_mask_t;
use buffer_unicode_tables::UnicodeTables;
use layout_map::map::hb_ot_map_t;
use layout_map::masks::joining_masks;

/// The Arabic shaper's data of a plan (`arabic_shape_plan_t`).
#[derive(Clone, Copy)]
pub struct arabic_shape_plan_t {
    /// The masks of ISOL, FINA, FIN2, FIN3, MEDI, MED2 and INIT, in this order.
    pub mask_array: [hb_mask_t; 7],
    /// Whether the font has the feature stch.
    pub has_stch: bool,
}

/// The Arabic shaper's data of a compiled map. It is the same for each script.
#[tactic(auto, using(crate::proofs::JoiningMasks::flagless))]
pub fn data_create_arabic(map: &hb_ot_map_t, _script: Option<Script>) -> arabic_shape_plan_t
    ensures masks { result.mask_array ≡ joining_masks map.now }
    ensures flagless { AreFlagless result.mask_array }
    ensures stch { result.has_stch ≡ has_mask (codes "stch") map.now }
{
    arabic_shape_plan_t {
        mask_array: joining_masks(map),
        has_stch: has_stch(map),
    }
}

/// Sets each letter's form by its neighbours, and adds the mask of the form's feature (`setup_masks`). It takes linear
/// time and no memory.
pub fn setup_masks(
    map: &hb_ot_map_t,
    script: Option<Script>,
    tables: &UnicodeTables,
    buffer: &mut hb_buffer_t,
)
    requires ready { IsReady buffer.old }
    ensures { IsFollowed (letters_joined (joining_masks map.now) script tables.now buffer.old.pre_context
        buffer.old.post_context)
        buffer.old buffer.new }
{
    let arabic_plan = data_create_arabic(map, script);
    script_joining::setup_masks_inner(tables, script, &arabic_plan.mask_array, buffer);
}

/// Sets each letter's form by its neighbours, with the given data, and adds the mask of the form's feature. It takes
/// linear time and no memory.
pub fn setup_masks_inner(
    arabic_plan: &arabic_shape_plan_t,
    script: Option<Script>,
    buffer: &mut hb_buffer_t,
    tables: &UnicodeTables,
)
    requires ready { IsReady buffer.old }
    requires flagless { AreFlagless arabic_plan.now.mask_array }
    ensures { IsFollowed (letters_joined arabic_plan.now.mask_array script tables.now buffer.old.pre_context
        buffer.old.post_context)
        buffer.old buffer.new }
{
    script_joining::setup_masks_inner(tables, script, &arabic_plan.mask_array, buffer);
}

/// Whether the font has the feature stch.
pub(crate) fn has_stch(map: &hb_ot_map_t) -> bool
    ensures { result ≡ has_mask (codes "stch") map.now }
{
    map.get_1_mask(Tag::from_bytes(b"stch")) != 0
}
