//! The shapers, and the choices each of them makes once for all texts (rustybuzz: hb/ot_shaper.rs).
ghost use Rattle.std.specs.Prelude.{◌≡◌};
ghost use Rattle.script_dispatch.specs.Shapers.{traits_of, keeps_order};

use buffer_common::tag::Tag;
use buffer_properties::NormalizationMode;
use script_categories::hb_ot_script_shaper_t::{
    self, ARABIC_SHAPER, HANGUL_SHAPER, HEBREW_SHAPER, INDIC_SHAPER, KHMER_SHAPER, MYANMAR_SHAPER,
    MYANMAR_ZAWGYI_SHAPER, THAI_SHAPER, UNIVERSAL_SHAPER,
};
use script_plan::planned::{
    HB_OT_SHAPE_ZERO_WIDTH_MARKS_BY_GDEF_EARLY, HB_OT_SHAPE_ZERO_WIDTH_MARKS_BY_GDEF_LATE,
    HB_OT_SHAPE_ZERO_WIDTH_MARKS_NONE, hb_ot_shape_zero_width_marks_type_t,
};

/// A shaper: the default one, the dumber one, or one made for some scripts.
#[derive(Clone, Copy)]
pub enum hb_ot_any_shaper_t {
    Default,
    Dumber,
    Script(hb_ot_script_shaper_t),
}

/// The shaper of scripts without one of their own (HarfBuzz: _hb_ot_shaper_default).
pub const DEFAULT_SHAPER: hb_ot_any_shaper_t = hb_ot_any_shaper_t::Default;

/// The shaper that neither zeroes mark advances nor positions marks by itself (HarfBuzz: _hb_ot_shaper_dumber).
pub const DUMBER_SHAPER: hb_ot_any_shaper_t = hb_ot_any_shaper_t::Dumber;

impl hb_ot_any_shaper_t {
    /// The form in which the shaper prefers characters.
    pub fn normalization_preference(self) -> NormalizationMode
        ensures { result ≡ (traits_of self).normalization }
    {
        match self {
            hb_ot_any_shaper_t::Script(HANGUL_SHAPER | MYANMAR_ZAWGYI_SHAPER) =>
                NormalizationMode::None,
            hb_ot_any_shaper_t::Script(
                INDIC_SHAPER | KHMER_SHAPER | MYANMAR_SHAPER | UNIVERSAL_SHAPER,
            ) => { NormalizationMode::ComposedDiacriticsNoShortCircuit }
            _ => NormalizationMode::Auto,
        }
    }

    /// The GPOS script that the shaper is made for; with another script GPOS is not applied.
    pub fn gpos_tag(self) -> Option<Tag>
        ensures { result ≡ (traits_of self).gpos_tag }
    {
        match self {
            hb_ot_any_shaper_t::Script(HEBREW_SHAPER) => Some(Tag::from_bytes(b"hebr")),
            _ => None,
        }
    }

    /// When the advances of marks are zeroed.
    pub fn zero_width_marks(self) -> hb_ot_shape_zero_width_marks_type_t
        ensures { result ≡ (traits_of self).zero_width_marks }
    {
        match self {
            hb_ot_any_shaper_t::Script(MYANMAR_SHAPER | UNIVERSAL_SHAPER) => {
                HB_OT_SHAPE_ZERO_WIDTH_MARKS_BY_GDEF_EARLY
            }
            hb_ot_any_shaper_t::Default
            | hb_ot_any_shaper_t::Script(ARABIC_SHAPER | HEBREW_SHAPER | THAI_SHAPER) => {
                HB_OT_SHAPE_ZERO_WIDTH_MARKS_BY_GDEF_LATE
            }
            _ => HB_OT_SHAPE_ZERO_WIDTH_MARKS_NONE,
        }
    }

    /// Whether marks are positioned by glyph extents where the font has no rules for them.
    pub fn fallback_position(self) -> bool
        ensures { result ≡ (traits_of self).fallback_position }
    {
        matches!(
            self,
            hb_ot_any_shaper_t::Default | hb_ot_any_shaper_t::Script(ARABIC_SHAPER | HEBREW_SHAPER)
        )
    }

    /// Whether the order of clusters is kept at the monotone levels.
    pub fn keeps_cluster_order(self) -> bool
        ensures { result ≡ keeps_order self }
    {
        !matches!(self, hb_ot_any_shaper_t::Script(INDIC_SHAPER))
    }
}
