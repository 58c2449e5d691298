//! The planner's hooks of a shaper.

use buffer_common::direction::Direction;
use buffer_common::script::Script;
use buffer_common::tag::Tag;
use buffer_properties::NormalizationMode;
use layout_map::builder::hb_ot_map_builder_t;
use layout_map::map::hb_ot_map_t;
use std::alloc::{AllocError, Global};

/// When the advances of marks are zeroed: one of the constants below.
pub type hb_ot_shape_zero_width_marks_type_t = u32;

/// Never.
pub const HB_OT_SHAPE_ZERO_WIDTH_MARKS_NONE: u32 = 0;

/// Before positioning.
pub const HB_OT_SHAPE_ZERO_WIDTH_MARKS_BY_GDEF_EARLY: u32 = 1;

/// After positioning.
pub const HB_OT_SHAPE_ZERO_WIDTH_MARKS_BY_GDEF_LATE: u32 = 2;

/// What a shaper chooses once for all texts, and its feature requests.
pub trait PlannedShaper: Copy {
    ghost use Rattle.std.specs.Prelude.{◌≡◌, IfOk, OnOk, Option};
    ghost use Rattle.layout_map.specs.Compiled.{MapRequests, OtMapValue};
    ghost use Rattle.buffer_common.specs.declared.script.Script.{Script};
    ghost use Rattle.script_plan.specs.Traits.{ShaperTraits};

    /// The shaper's own data of a plan.
    type PlanData: Drop;

    ghost traits: { Self → ShaperTraits };

    ghost collects: { Self → Option Script → MapRequests → MapRequests };

    ghost overrides: { Self → Option Script → MapRequests → MapRequests };

    ghost data_of: { Self → OtMapValue → Option Script → Self.PlanData };

    /// The form in which the shaper prefers characters: composed, decomposed, or automatic.
    fn normalization_preference(&self) -> NormalizationMode
        ensures { result ≡ (traits self.now).normalization };

    /// The GPOS script that the shaper is made for; with another script GPOS is not applied.
    fn gpos_tag(&self) -> Option<Tag>
        ensures { result ≡ (traits self.now).gpos_tag };

    /// When the advances of marks are zeroed.
    fn zero_width_marks(&self) -> hb_ot_shape_zero_width_marks_type_t
        ensures { result ≡ (traits self.now).zero_width_marks };

    /// Whether marks are positioned by glyph extents where the font has no rules for them.
    fn fallback_position(&self) -> bool
        ensures { result ≡ (traits self.now).fallback_position };

    /// Requests the shaper's features for a script, between the common requests of every text.
    fn collect_features(
        &self,
        builder: &mut hb_ot_map_builder_t,
        script: Option<Script>,
    ) -> Result<(), AllocError>
        ensures { OnOk result (builder.new ≡ collects self.now script builder.old) };

    /// Requests the features that the shaper sets after the user's.
    fn override_features(
        &self,
        builder: &mut hb_ot_map_builder_t,
        script: Option<Script>,
    ) -> Result<(), AllocError>
        ensures { OnOk result (builder.new ≡ overrides self.now script builder.old) };

    /// Makes the shaper's own data for texts of a script, by a compiled map.
    fn create_data(
        &self,
        alloc: Global,
        map: &hb_ot_map_t,
        script: Option<Script>,
    ) -> Result<Self::PlanData, AllocError>
        ensures { IfOk result (λ kept. kept ≡ data_of self.now map.now script) };
}

/// A family of shapers, one of which is chosen for a text by its script.
pub trait CategorizedShaper: PlannedShaper {
    ghost use Rattle.std.specs.Prelude.{◌≡◌, Option};
    ghost use Rattle.buffer_common.specs.declared.direction.Direction.{Direction};
    ghost use Rattle.buffer_common.specs.declared.script.Script.{Script};
    ghost use Rattle.buffer_common.specs.declared.tag.Tag.{Tag};

    ghost shaper_of: { Option Script → Direction → Option Tag → Self };

    /// The shaper of a text by its script, its direction, and the chosen GSUB script.
    fn categorize(script: Option<Script>, direction: Direction, gsub_script: Option<Tag>) -> Self
        ensures { result ≡ shaper_of script direction gsub_script };
}
