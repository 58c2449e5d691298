//! Plans for texts.
use crate::data::Tables;
use crate::decomposing::DecomposingShaper;
use crate::rows::text_of;
use buffer_wrappers::unicode_buffer::UnicodeBuffer;
use layout_face::Face;
use script_plan::plan::hb_ot_shape_plan_t;
use script_plan::planner::hb_ot_shape_planner_t;
use shape_pipeline::hb_ot_any_shaper_t;
use std::alloc::{AllocError, Global};
use std::test::Fail;

/// The plan of a text, with the shaper chosen for its script.
fn plan_of(
    alloc: Global,
    face: &Face,
    tables: Tables<'_>,
    text: &UnicodeBuffer,
) -> Result<hb_ot_shape_plan_t<hb_ot_any_shaper_t>, AllocError> {
    hb_ot_shape_plan_t::new(
        alloc,
        face,
        tables.data(),
        text.guessed_direction(),
        text.guessed_script(),
        text.language(),
        &[],
    )
}

/// The plan of a row's text.
pub(crate) fn plan_of_row(
    alloc: Global,
    face: &Face,
    tables: Tables<'_>,
    row: &str,
) -> Result<hb_ot_shape_plan_t<hb_ot_any_shaper_t>, Fail> {
    let text = text_of(alloc, row)?;
    let plan = plan_of(alloc, face, tables, &text)?;
    Ok(plan)
}

/// The plan of a text, with a shaper of the test's own.
fn decomposing_plan_of(
    alloc: Global,
    face: &Face,
    tables: Tables<'_>,
    text: &UnicodeBuffer,
) -> Result<hb_ot_shape_plan_t<DecomposingShaper>, AllocError> {
    let mut planner = hb_ot_shape_planner_t::with_shaper(
        alloc,
        face,
        tables.data(),
        text.guessed_direction(),
        text.guessed_script(),
        text.language(),
        DecomposingShaper,
    );
    planner.collect_features(&[])?;
    planner.compile(alloc, &[])
}

/// The plan of a row's text, with the test's own shaper.
pub(crate) fn decomposing_plan_of_row(
    alloc: Global,
    face: &Face,
    tables: Tables<'_>,
    row: &str,
) -> Result<hb_ot_shape_plan_t<DecomposingShaper>, Fail> {
    let text = text_of(alloc, row)?;
    let plan = decomposing_plan_of(alloc, face, tables, &text)?;
    Ok(plan)
}
