//! The masks and categories of the universal shaper (rustybuzz: hb/ot_shaper_use.rs).
ghost use Rattle.std.specs.Prelude.{◌≡◌, codes};
ghost use Rattle.buffer_stages.specs.Ready.{IsReady};
ghost use Rattle.buffer_stages.specs.Stages.{IsFollowed};
ghost use Rattle.layout_map.specs.Masks.{joining_masks, mask_at_one};
ghost use Rattle.script_joining.specs.Joining.{letters_joined};
ghost use Rattle.script_universal.specs.Masks.{form_mask, form_masks, letters_joined_if, letters_join, universal_masks_set};

use crate::character_categories::set_universal_categories;
use buffer_common::script::{
    ADLAM, ARABIC, CHORASMIAN, HANIFI_ROHINGYA, MANDAIC, MANICHAEAN, MONGOLIAN, NKO, OLD_UYGHUR,
    PHAGS_PA, PSALTER_PAHLAVI, SOGDIAN, SYRIAC, Script,
};
use buffer_common::tag::Tag;
use buffer_core::buffer::hb_buffer_t;
use buffer_glyphs::info::hb_mask_t;
use buffer_unicode_tables::UnicodeTables;
use layout_map::map::hb_ot_map_t;
use layout_map::masks::joining_masks;
use script_syllabic::forms::FormMasks;

/// The scripts whose letters join as Arabic ones do.
const JOINING: [Script; 13] = [
    ADLAM,
    ARABIC,
    CHORASMIAN,
    HANIFI_ROHINGYA,
    MANDAIC,
    MANICHAEAN,
    MONGOLIAN,
    NKO,
    OLD_UYGHUR,
    PHAGS_PA,
    PSALTER_PAHLAVI,
    SOGDIAN,
    SYRIAC,
];

/// Gives letters their forms where those of the script join, and each character its category. It takes linear time and no
/// memory.
#[tactic(auto, using(script_syllabic::proofs::Quiet::followed_then))]
pub fn setup_masks(
    map: &hb_ot_map_t,
    script: Option<Script>,
    tables: &UnicodeTables,
    buffer: &mut hb_buffer_t,
)
    requires ready { IsReady buffer.old }
    ensures { IsFollowed (universal_masks_set map.now script tables.now buffer.old.pre_context buffer.old.post_context)
        buffer.old buffer.new }
{
    join_letters(map, script, tables, buffer);
    set_universal_categories(tables, buffer);
}

fn join_letters(
    map: &hb_ot_map_t,
    script: Option<Script>,
    tables: &UnicodeTables,
    buffer: &mut hb_buffer_t,
)
    requires ready { IsReady buffer.old }
    ensures { IsFollowed (letters_joined_if map.now script tables.now buffer.old.pre_context buffer.old.post_context)
        buffer.old buffer.new }
{
    if letters_join(script) {
        set_joining_masks(map, script, tables, buffer);
    }
}

#[tactic(auto, using(crate::proofs::JoiningMasks::flagless))]
fn set_joining_masks(
    map: &hb_ot_map_t,
    script: Option<Script>,
    tables: &UnicodeTables,
    buffer: &mut hb_buffer_t,
)
    requires ready { IsReady buffer.old }
    ensures { IsFollowed (letters_joined (joining_masks map.now) script tables.now buffer.old.pre_context
        buffer.old.post_context)
        buffer.old buffer.new }
{
    let masks = joining_masks(map);
    script_joining::setup_masks_inner(tables, script, &masks, buffer);
}

/// Whether the letters of a script join as Arabic ones do (`has_arabic_joining`).
fn letters_join(script: Option<Script>) -> bool
    ensures { result ≡ letters_join script }
{
    match script {
        Some(script) => JOINING.contains(&script),
        None => false,
    }
}

/// The mask of the feature rphf.
pub(crate) fn rphf_mask(map: &hb_ot_map_t) -> hb_mask_t
    ensures { result ≡ mask_at_one (codes "rphf") map.now }
{
    map.get_1_mask(Tag::from_bytes(b"rphf"))
}

/// The masks of the topographical forms; none where the script's letters join.
pub(crate) fn form_masks(map: &hb_ot_map_t, script: Option<Script>) -> Option<FormMasks>
    ensures { result ≡ form_masks map.now script }
{
    if letters_join(script) {
        return None;
    }
    Some(FormMasks {
        isol: form_mask(map, Tag::from_bytes(b"isol")),
        init: form_mask(map, Tag::from_bytes(b"init")),
        medi: form_mask(map, Tag::from_bytes(b"medi")),
        fina: form_mask(map, Tag::from_bytes(b"fina")),
    })
}

/// The mask of a form's feature; 0 where it is the mask of every glyph.
fn form_mask(map: &hb_ot_map_t, tag: Tag) -> hb_mask_t
    ensures { result ≡ form_mask tag map.now }
{
    let mask = map.get_1_mask(tag);
    if mask == map.get_global_mask() {
        0
    } else {
        mask
    }
}
