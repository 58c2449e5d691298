//! What a planner decides of marks, the numbers of modes, and the data that scripts' shapers make of a map.
use crate::data::{Tables, face_of};
use crate::decomposing::DecomposingShaper;
use buffer_common::direction::Direction;
use buffer_properties::NormalizationMode;
use layout_face::Face;
use layout_map::map::hb_ot_map_t;
use script_categories::hb_ot_script_shaper_t::{ARABIC_SHAPER, INDIC_SHAPER, THAI_SHAPER};
use script_dispatch::hooks::ScriptHooks;
use script_dispatch::plan_data::hb_script_plan_data_t;
use script_plan::normal_mode::{
    HB_OT_SHAPE_NORMALIZATION_MODE_DEFAULT, HB_OT_SHAPE_NORMALIZATION_MODE_NONE, mode_number,
    mode_of,
};
use script_plan::planner::hb_ot_shape_planner_t;
use std::alloc::{AllocError, Global};
use std::test::Fail;

/// A font without GPOS.
static FONT: &str = r#"{"cmap":[[97,1]]}"#;

/// Arabic data of a map without the feature stch is of no stretched words.
fn makes_arabic_data(map: &hb_ot_map_t) -> bool {
    match ARABIC_SHAPER.create_data(map, None) {
        Ok(hb_script_plan_data_t::Arabic(masks)) => !masks.has_stch,
        _ => false,
    }
}

fn makes_indic_data(map: &hb_ot_map_t) -> bool {
    match INDIC_SHAPER.create_data(map, None) {
        Ok(hb_script_plan_data_t::Indic(_)) => true,
        _ => false,
    }
}

fn makes_no_thai_data(map: &hb_ot_map_t) -> bool {
    match THAI_SHAPER.create_data(map, None) {
        Ok(hb_script_plan_data_t::None) => true,
        _ => false,
    }
}

fn makes_data(map: &hb_ot_map_t) -> bool {
    makes_arabic_data(map) && makes_indic_data(map) && makes_no_thai_data(map)
}

/// A planner has its shaper's choices of marks, and its plan the planner's.
fn has_own_choices(alloc: Global, face: &Face, tables: Tables<'_>) -> Result<bool, AllocError> {
    let mut planner = hb_ot_shape_planner_t::with_shaper(
        alloc,
        face,
        tables.data(),
        Direction::LeftToRight,
        None,
        None,
        DecomposingShaper,
    );
    let by_shaper = planner.script_zero_marks && planner.script_fallback_mark_positioning;
    planner.script_zero_marks = false;
    planner.script_fallback_mark_positioning = false;
    let plan = planner.compile(alloc, &[])?;
    let choices = plan.script_plan.choices;
    let by_planner = !choices.zero_marks && !choices.fallback_mark_positioning;
    Ok(by_shaper && by_planner && makes_data(&plan.script_plan.map))
}

fn are_numbered() -> bool {
    let none = match mode_of(HB_OT_SHAPE_NORMALIZATION_MODE_NONE) {
        NormalizationMode::None => true,
        _ => false,
    };
    let unknown = match mode_of(-1) {
        NormalizationMode::Auto => true,
        _ => false,
    };
    none && unknown
        && mode_number(NormalizationMode::Auto) == HB_OT_SHAPE_NORMALIZATION_MODE_DEFAULT
}

/// Whether planners, modes and data are as the constants say.
pub(crate) fn agrees(alloc: Global, tables: Tables<'_>) -> Result<bool, Fail> {
    let face = face_of(alloc, FONT)?;
    let planned = has_own_choices(alloc, &face, tables)?;
    Ok(planned && are_numbered())
}
