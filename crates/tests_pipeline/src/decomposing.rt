//! A shaper that prefers decomposed characters and has no hooks: its laws can be met outside the stack.
//!
//! Its calls repeat the arguments of the trait of shapers, as each impl of the trait does.
use buffer_common::script::Script;
use buffer_common::tag::Tag;
use buffer_core::buffer::hb_buffer_t;
use buffer_glyphs::cause::ShapeCause;
use buffer_properties::NormalizationMode;
use buffer_unicode_tables::UnicodeTables;
use layout_face::Face;
use layout_map::builder::hb_ot_map_builder_t;
use layout_map::map::hb_ot_map_t;
use script_categories::SyllableSpans;
use script_plan::hb_ot_shaper_t;
use script_plan::plan::hb_script_plan_t;
use script_plan::planned::{
    HB_OT_SHAPE_ZERO_WIDTH_MARKS_BY_GDEF_LATE, PlannedShaper, hb_ot_shape_zero_width_marks_type_t,
};
use std::alloc::{AllocError, Global};

/// A shaper that prefers decomposed characters.
#[derive(Clone, Copy)]
pub struct DecomposingShaper;

impl PlannedShaper for DecomposingShaper {
    ghost use Rattle.tests_pipeline.specs.Decomposing.{decomposing_traits};

    type PlanData = ();

    ghost traits = { λ _. decomposing_traits };

    ghost collects = { λ _ _ asked. asked };

    ghost overrides = { λ _ _ asked. asked };

    ghost data_of = { λ _ _ _. tt };

    fn normalization_preference(&self) -> NormalizationMode {
        NormalizationMode::Decomposed
    }

    fn gpos_tag(&self) -> Option<Tag> {
        None
    }

    fn zero_width_marks(&self) -> hb_ot_shape_zero_width_marks_type_t {
        HB_OT_SHAPE_ZERO_WIDTH_MARKS_BY_GDEF_LATE
    }

    fn fallback_position(&self) -> bool {
        true
    }

    fn collect_features(
        &self,
        _builder: &mut hb_ot_map_builder_t,
        _script: Option<Script>,
    ) -> Result<(), AllocError> {
        Ok(())
    }

    fn override_features(
        &self,
        _builder: &mut hb_ot_map_builder_t,
        _script: Option<Script>,
    ) -> Result<(), AllocError> {
        Ok(())
    }

    fn create_data(
        &self,
        _alloc: Global,
        _map: &hb_ot_map_t,
        _script: Option<Script>,
    ) -> Result<(), AllocError> {
        Ok(())
    }
}

impl hb_ot_shaper_t for DecomposingShaper {
    ghost use Rattle.std.specs.Prelude.{refl, true};
    ghost use Rattle.buffer_unicode_tables.specs.Tables.{split_of};
    ghost use Rattle.script_plan.specs.Rules.{plain_rules};
    ghost use Rattle.script_plan.specs.Lemmas.Unchanged.{nine_splits, plain_rules_depend_on_no_limit, plain_rules_keep_parts};

    ghost rules = { λ _ _. plain_rules };

    ghost keeps_order = { λ _. true };

    ghost splits_end = { λ _ _ t. nine_splits (split_of t) };

    ghost keeps_count = { λ _ _ _. refl };

    ghost rules_keep_parts = { λ _ _ _. plain_rules_keep_parts };

    ghost rules_depend_on_no_limit = { λ _ _. plain_rules_depend_on_no_limit };

    fn preprocess_text(
        &self,
        _plan: &hb_script_plan_t<()>,
        _face: &Face,
        _tables: &UnicodeTables,
        _buffer: &mut hb_buffer_t,
    ) -> Result<(), ShapeCause> {
        Ok(())
    }

    fn decompose(
        &self,
        _plan: &hb_script_plan_t<()>,
        tables: &UnicodeTables,
        ab: char,
    ) -> Option<(char, char)> {
        buffer_unicode_tables::decompose(tables, ab)
    }

    fn compose(
        &self,
        _plan: &hb_script_plan_t<()>,
        tables: &UnicodeTables,
        a: char,
        b: char,
    ) -> Option<char> {
        buffer_unicode_tables::compose(tables, a, b)
    }

    #[tactic(auto, using(script_plan::specs::Lemmas::Unchanged::unchanged_run))]
    fn reorder_marks(
        &self,
        _plan: &hb_script_plan_t<()>,
        _buffer: &mut hb_buffer_t,
        _start: usize,
        _end: usize,
    ) {}

    fn setup_masks(
        &self,
        _plan: &hb_script_plan_t<()>,
        _face: &Face,
        _tables: &UnicodeTables,
        _buffer: &mut hb_buffer_t,
    ) -> Result<(), ShapeCause> {
        Ok(())
    }

    fn run_pause<P: SyllableSpans>(
        &self,
        _alloc: Global,
        _pause: u8,
        _plan: &hb_script_plan_t<()>,
        _face: &Face,
        _tables: &UnicodeTables,
        _spans: &P,
        _buffer: &mut hb_buffer_t,
    ) -> Result<bool, ShapeCause> {
        Ok(false)
    }

    fn postprocess_glyphs(
        &self,
        _alloc: Global,
        _plan: &hb_script_plan_t<()>,
        _face: &Face,
        _buffer: &mut hb_buffer_t,
    ) -> Result<(), ShapeCause> {
        Ok(())
    }

    fn keeps_cluster_order(&self) -> bool {
        true
    }
}
