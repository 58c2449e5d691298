//! The planner's hooks of the shapers of this stack.
ghost use Rattle.script_dispatch.specs.Dispatch.{shaper_of};
ghost use Rattle.script_dispatch.specs.Requests.{collected_requests, overridden};
ghost use Rattle.script_dispatch.specs.Shapers.{traits_of};

use crate::any_shaper::{DEFAULT_SHAPER, hb_ot_any_shaper_t};
use crate::dispatch::hb_ot_shape_complex_categorize;
use buffer_common::direction::Direction;
use buffer_common::script::Script;
use buffer_common::tag::Tag;
use buffer_properties::NormalizationMode;
use layout_map::builder::hb_ot_map_builder_t;
use layout_map::map::hb_ot_map_t;
use script_categories::hb_ot_script_shaper_t::{
    ARABIC_SHAPER, HANGUL_SHAPER, INDIC_SHAPER, KHMER_SHAPER, MYANMAR_SHAPER, UNIVERSAL_SHAPER,
};
use script_plan::planned::{CategorizedShaper, PlannedShaper, hb_ot_shape_zero_width_marks_type_t};
use std::alloc::{AllocError, Global};

impl PlannedShaper for hb_ot_any_shaper_t {
    type PlanData = ();

    ghost traits = { traits_of };

    ghost collects = { collected_requests };

    ghost overrides = { overridden };

    ghost data_of = { λ _ _ _. tt };

    fn normalization_preference(&self) -> NormalizationMode {
        hb_ot_any_shaper_t::normalization_preference(*self)
    }

    fn gpos_tag(&self) -> Option<Tag> {
        hb_ot_any_shaper_t::gpos_tag(*self)
    }

    fn zero_width_marks(&self) -> hb_ot_shape_zero_width_marks_type_t {
        hb_ot_any_shaper_t::zero_width_marks(*self)
    }

    fn fallback_position(&self) -> bool {
        hb_ot_any_shaper_t::fallback_position(*self)
    }

    fn collect_features(
        &self,
        builder: &mut hb_ot_map_builder_t,
        script: Option<Script>,
    ) -> Result<(), AllocError> {
        match *self {
            hb_ot_any_shaper_t::Script(ARABIC_SHAPER) => {
                script_arabic::requests::collect_features(builder, script)
            }
            hb_ot_any_shaper_t::Script(HANGUL_SHAPER) => {
                script_hangul::requests::collect_features(builder)
            }
            hb_ot_any_shaper_t::Script(INDIC_SHAPER) => {
                script_indic::requests::collect_features(builder)
            }
            hb_ot_any_shaper_t::Script(KHMER_SHAPER) => {
                script_khmer::requests::collect_features(builder)
            }
            hb_ot_any_shaper_t::Script(MYANMAR_SHAPER) => {
                script_myanmar::requests::collect_features(builder)
            }
            hb_ot_any_shaper_t::Script(UNIVERSAL_SHAPER) => {
                script_universal::requests::collect_features(builder)
            }
            _ => Ok(()),
        }
    }

    fn override_features(
        &self,
        builder: &mut hb_ot_map_builder_t,
        _script: Option<Script>,
    ) -> Result<(), AllocError> {
        match *self {
            hb_ot_any_shaper_t::Script(HANGUL_SHAPER) => {
                script_hangul::requests::override_features(builder)
            }
            hb_ot_any_shaper_t::Script(INDIC_SHAPER) => {
                script_indic::requests::override_features(builder)
            }
            hb_ot_any_shaper_t::Script(KHMER_SHAPER) => {
                script_khmer::requests::override_features(builder)
            }
            _ => Ok(()),
        }
    }

    fn create_data(
        &self,
        _alloc: Global,
        _map: &hb_ot_map_t,
        _script: Option<Script>,
    ) -> Result<(), AllocError> {
        Ok(())
    }
}

impl CategorizedShaper for hb_ot_any_shaper_t {
    ghost shaper_of = { shaper_of };

    fn categorize(
        script: Option<Script>,
        direction: Direction,
        gsub_script: Option<Tag>,
    ) -> hb_ot_any_shaper_t {
        match script {
            Some(script) => hb_ot_shape_complex_categorize(script, direction, gsub_script),
            None => DEFAULT_SHAPER,
        }
    }
}
