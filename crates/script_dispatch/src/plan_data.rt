//! What the scripts' shapers make of a compiled map, their data_create (rustybuzz: hb/ot_shaper_arabic.rs,
//! hb/ot_shaper_hangul.rs, hb/ot_shaper_indic.rs, hb/ot_shaper_khmer.rs, hb/ot_shaper_use.rs).
ghost use Rattle.std.specs.Prelude.{◌≡◌};
ghost use Rattle.script_dispatch.specs.PlanData.{indic_features};
ghost use Rattle.script_hangul.specs.MapMasks.{jamo_masks};
ghost use Rattle.script_khmer.specs.Masks.{khmer_masks};

use buffer_common::script::Script;
use buffer_common::tag::Tag;
use buffer_glyphs::info::hb_mask_t;
use layout_map::map::hb_ot_map_t;
use script_arabic::masks::arabic_shape_plan_t;
use script_hangul::masks::JamoMasks;
use script_indic::config::indic_config;
use script_indic::would_substitute::IndicWouldSubstituteFeature;
use script_khmer::khmer::KhmerMasks;

/// The features that glyphs of an Indic syllable are tested for (rustybuzz: `IndicShapePlan`).
#[derive(Clone, Copy)]
pub struct IndicFeatures {
    pub rphf: IndicWouldSubstituteFeature,
    pub pref: IndicWouldSubstituteFeature,
    pub blwf: IndicWouldSubstituteFeature,
    pub pstf: IndicWouldSubstituteFeature,
    pub vatu: IndicWouldSubstituteFeature,
}

/// A shaper's own data of a compiled map.
#[derive(Clone, Copy)]
pub enum hb_script_plan_data_t {
    /// The shaper has none.
    None,
    /// The masks of letters' forms, and whether words are stretched.
    Arabic(arabic_shape_plan_t),
    /// The masks of letters by their position in a syllable.
    Hangul(JamoMasks),
    /// The features that syllables are tested for.
    Indic(IndicFeatures),
    /// The masks of a syllable's glyphs.
    Khmer(KhmerMasks),
    /// The mask of the feature rphf.
    Universal(hb_mask_t),
}

/// The masks of the features of the three kinds of jamo.
pub(crate) fn jamo_masks(map: &hb_ot_map_t) -> JamoMasks
    ensures { result ≡ jamo_masks map.now }
{
    JamoMasks {
        ljmo: map.get_1_mask(Tag::from_bytes(b"ljmo")),
        vjmo: map.get_1_mask(Tag::from_bytes(b"vjmo")),
        tjmo: map.get_1_mask(Tag::from_bytes(b"tjmo")),
    }
}

/// The masks of the features of a Khmer syllable.
pub(crate) fn khmer_masks(map: &hb_ot_map_t) -> KhmerMasks
    ensures { result ≡ khmer_masks map.now }
{
    let blwf = map.get_1_mask(Tag::from_bytes(b"blwf"));
    let abvf = map.get_1_mask(Tag::from_bytes(b"abvf"));
    let pstf = map.get_1_mask(Tag::from_bytes(b"pstf"));
    KhmerMasks {
        pref: map.get_1_mask(Tag::from_bytes(b"pref")),
        post_base: (blwf | abvf) | pstf,
        cfar: map.get_1_mask(Tag::from_bytes(b"cfar")),
    }
}

/// The five features, tested by rules without context alone where the script's config says so.
pub(crate) fn indic_features(map: &hb_ot_map_t, script: Option<Script>) -> IndicFeatures
    ensures { result ≡ indic_features map.now script }
{
    let zero_context = indic_config(script).zero_context;
    IndicFeatures {
        rphf: IndicWouldSubstituteFeature::new(map, Tag::from_bytes(b"rphf"), zero_context),
        pref: IndicWouldSubstituteFeature::new(map, Tag::from_bytes(b"pref"), zero_context),
        blwf: IndicWouldSubstituteFeature::new(map, Tag::from_bytes(b"blwf"), zero_context),
        pstf: IndicWouldSubstituteFeature::new(map, Tag::from_bytes(b"pstf"), zero_context),
        vatu: IndicWouldSubstituteFeature::new(map, Tag::from_bytes(b"vatu"), zero_context),
    }
}
