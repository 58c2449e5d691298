//! The shape plan for one direction, script, language and font (rustybuzz: hb/ot_shape_plan.rs).
ghost use Rattle.std.specs.Prelude.{◌≡◌, codes};
ghost use Rattle.std.specs.Int.RustNames.{bit_and};
ghost use Rattle.layout_map.specs.Masks.{mask_at_one};
ghost use Rattle.buffer_glyphs.specs.declared.info.TheConstants.{DEFINED};

use crate::planned::PlannedShaper;
use arrayvec::ArrayVec;
use buffer_common::direction::Direction;
use buffer_common::script::Script;
use buffer_common::tag::Tag;
use buffer_tags::feature::Feature;
use layout_map::map::hb_ot_map_t;

/// The choices of a plan, beside its map.
#[derive(Clone, Copy)]
pub struct PlanChoices {
    /// Whether the font has the feature frac, or numr and dnom.
    pub has_frac: bool,
    /// Whether the font has the feature vert.
    pub has_vert: bool,
    /// Whether the advances of marks are zeroed.
    pub zero_marks: bool,
    /// Whether glyph classes are synthesized from the characters.
    pub fallback_glyph_classes: bool,
    /// Whether marks are positioned by glyph extents.
    pub fallback_mark_positioning: bool,
    /// Whether a mark whose advance is zeroed is shifted back by it.
    pub adjust_mark_positioning_when_zeroing: bool,
    /// Whether GPOS is applied.
    pub apply_gpos: bool,
    /// Whether the fallback kerning is applied.
    pub apply_fallback_kern: bool,
}

/// What a shaper's hooks read of a plan.
#[derive(Drop)]
pub struct hb_script_plan_t<D> {
    /// The direction of the plan's texts.
    pub direction: Direction,
    pub script: Option<Script>,
    pub map: hb_ot_map_t,
    /// Whether the font has the GPOS feature mark.
    pub has_gpos_mark: bool,
    pub choices: PlanChoices,
    /// The shaper's own data of the plan (`data_create`).
    pub plan_data: D,
}

/// A plan: it shapes any text of its direction, script and language with its font.
#[derive(Drop)]
pub struct hb_ot_shape_plan_t<S: PlannedShaper> {
    pub shaper: S,
    pub script_plan: hb_script_plan_t<S::PlanData>,
    pub user_features: Vec<Feature>,
    /// The OpenType tags of the language of the plan's texts, the first wanted first.
    pub language_tags: ArrayVec<Tag, 3>,
}

impl<D> hb_script_plan_t<D> {
    /// The mask of the feature frac, without glyph flags.
    pub fn frac_mask(&self) -> u32
        ensures value { result ≡ mask_at_one (codes "frac") self.now.map }
        ensures flagless { bit_and result DEFINED ≡ 0 }
    {
        self.map.get_1_mask(Tag::from_bytes(b"frac"))
    }

    /// The mask of the feature numr, without glyph flags.
    pub fn numr_mask(&self) -> u32
        ensures value { result ≡ mask_at_one (codes "numr") self.now.map }
        ensures flagless { bit_and result DEFINED ≡ 0 }
    {
        self.map.get_1_mask(Tag::from_bytes(b"numr"))
    }

    /// The mask of the feature dnom, without glyph flags.
    pub fn dnom_mask(&self) -> u32
        ensures value { result ≡ mask_at_one (codes "dnom") self.now.map }
        ensures flagless { bit_and result DEFINED ≡ 0 }
    {
        self.map.get_1_mask(Tag::from_bytes(b"dnom"))
    }

    /// The mask of the feature rtlm, without glyph flags.
    pub fn rtlm_mask(&self) -> u32
        ensures value { result ≡ mask_at_one (codes "rtlm") self.now.map }
        ensures flagless { bit_and result DEFINED ≡ 0 }
    {
        self.map.get_1_mask(Tag::from_bytes(b"rtlm"))
    }
}
