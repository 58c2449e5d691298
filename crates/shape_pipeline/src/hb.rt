//! The layer's names where rustybuzz has them, by its files under src/hb.

/// Planners, and the stages in order.
pub mod ot_shape {
    pub use crate::context::{hb_ot_shape_context_t, shape_internal};
    pub use script_plan::planner::hb_ot_shape_planner_t;
}

/// Classes, spaces and positions for a font without rules for them.
pub mod ot_shape_fallback {
    pub use crate::fallback::{
        _hb_ot_shape_fallback_kern, _hb_ot_shape_fallback_mark_position_recategorize_marks,
        _hb_ot_shape_fallback_spaces, position_marks,
    };
}

/// Normalizing a text for a font.
pub mod ot_shape_normalize {
    pub use crate::normalize_context::{_hb_ot_shape_normalize, hb_ot_shape_normalize_context_t};
    pub use buffer_properties::NormalizationMode;
    pub use script_plan::normal_mode::{
        HB_OT_SHAPE_NORMALIZATION_MODE_AUTO, HB_OT_SHAPE_NORMALIZATION_MODE_COMPOSED_DIACRITICS,
        HB_OT_SHAPE_NORMALIZATION_MODE_COMPOSED_DIACRITICS_NO_SHORT_CIRCUIT,
        HB_OT_SHAPE_NORMALIZATION_MODE_DECOMPOSED, HB_OT_SHAPE_NORMALIZATION_MODE_DEFAULT,
        HB_OT_SHAPE_NORMALIZATION_MODE_NONE, hb_ot_shape_normalization_mode_t, mode_number,
        mode_of,
    };
    pub use shape_normalize::normalizing::Normalizing;
}

/// Plans.
pub mod ot_shape_plan {
    pub use script_plan::plan::{PlanChoices, hb_ot_shape_plan_t};
}

/// Shapers: their trait, those of this stack, and the choice of one.
pub mod ot_shaper {
    pub use buffer_properties::MAX_COMBINING_MARKS;
    pub use script_dispatch::{
        DEFAULT_SHAPER, DUMBER_SHAPER, hb_ot_any_shaper_t, hb_ot_shape_complex_categorize,
    };
    pub use script_plan::hb_ot_shaper_t;
    pub use script_plan::planned::{
        CategorizedShaper, HB_OT_SHAPE_ZERO_WIDTH_MARKS_BY_GDEF_EARLY,
        HB_OT_SHAPE_ZERO_WIDTH_MARKS_BY_GDEF_LATE, HB_OT_SHAPE_ZERO_WIDTH_MARKS_NONE,
        PlannedShaper, hb_ot_shape_zero_width_marks_type_t,
    };
}
