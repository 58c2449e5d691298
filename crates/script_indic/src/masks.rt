//! The masks that the Indic shaper reads of a map (rustybuzz: hb/ot_shaper_indic.rs, `IndicShapePlan`).
ghost use Rattle.std.specs.Prelude.{◌≡◌, codes, List, ℕ};
ghost use Rattle.buffer_glyphs.specs.declared.info.TheConstants.{DEFINED};
ghost use Rattle.std.specs.Int.RustNames.{bit_and, bit_or};
ghost use Rattle.layout_map.specs.Masks.{mask_at_one};
ghost use Rattle.script_indic.specs.Masks.{before_base_mask, indic_masks, AreFlagless};

use crate::config::BlwfMode;
use buffer_common::tag::Tag;
use buffer_glyphs::info::hb_mask_t;
use layout_map::map::hb_ot_map_t;
use script_indic_reordering::script::IndicMasks;

/// The masks that the Indic shaper sets and tests; none has a glyph flag. A feature that the map gives the global bit has
/// the mask of this bit, which every glyph has.
pub fn indic_masks(map: &hb_ot_map_t, blwf_mode: BlwfMode) -> IndicMasks
    ensures value { result ≡ indic_masks blwf_mode map.now }
    ensures flagless { AreFlagless result }
{
    let blwf = mask_at_one(map, b"blwf");
    let abvf = mask_at_one(map, b"abvf");
    let pstf = mask_at_one(map, b"pstf");
    let half = mask_at_one(map, b"half");
    IndicMasks {
        rphf: mask_at_one(map, b"rphf"),
        before_base: before_base_mask(half, blwf, blwf_mode),
        after_base: after_base_mask(blwf, abvf, pstf),
        half,
        pref: mask_at_one(map, b"pref"),
        init: mask_at_one(map, b"init"),
    }
}

/// The mask of a feature with value 1; 0 where the map lacks it.
fn mask_at_one(map: &hb_ot_map_t, name: &[u8; 4]) -> hb_mask_t
    ensures value { result ≡ mask_at_one name.now map.now }
    ensures flagless { bit_and result DEFINED ≡ 0 }
{
    map.get_1_mask(Tag::from_bytes(name))
}

/// The mask of glyphs before the base: half, and blwf where it forms consonants before the base too.
#[tactic(auto, using(buffer_facts::proofs::Bits::both_without_three_bits))]
fn before_base_mask(half: hb_mask_t, blwf: hb_mask_t, blwf_mode: BlwfMode) -> hb_mask_t
    requires half { bit_and half DEFINED ≡ 0 }
    requires blwf { bit_and blwf DEFINED ≡ 0 }
    ensures value { result ≡ before_base_mask half blwf blwf_mode }
    ensures flagless { bit_and result DEFINED ≡ 0 }
{
    match blwf_mode {
        BlwfMode::PreAndPost => half | blwf,
        BlwfMode::PostOnly => half,
    }
}

/// The mask of glyphs after the base: blwf, abvf and pstf together.
#[tactic(auto, using(crate::proofs::Flagless::three_flagless))]
fn after_base_mask(blwf: hb_mask_t, abvf: hb_mask_t, pstf: hb_mask_t) -> hb_mask_t
    requires blwf { bit_and blwf DEFINED ≡ 0 }
    requires abvf { bit_and abvf DEFINED ≡ 0 }
    requires pstf { bit_and pstf DEFINED ≡ 0 }
    ensures value { result ≡ bit_or (bit_or blwf abvf) pstf }
    ensures flagless { bit_and result DEFINED ≡ 0 }
{
    (blwf | abvf) | pstf
}
