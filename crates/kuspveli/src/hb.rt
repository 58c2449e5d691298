//! The names of the layers where rustybuzz has them, by its files under src/hb.

pub use opentype_layout::hb::{
    face, ot_layout, ot_layout_common, ot_layout_gpos_table, ot_layout_gsub_table,
    ot_layout_gsubgpos, ot_map,
};
pub use script_shapers::hb::{
    ot_shaper_arabic, ot_shaper_hangul, ot_shaper_hebrew, ot_shaper_indic, ot_shaper_khmer,
    ot_shaper_myanmar, ot_shaper_syllabic, ot_shaper_thai, ot_shaper_use, syllable_kinds,
};
pub use shape_pipeline::hb::{
    ot_shape, ot_shape_fallback, ot_shape_normalize, ot_shape_plan, ot_shaper,
};
pub use shaping_buffer::hb::{buffer, common, tag, text_parser, unicode};

/// Shaping a text.
pub mod shape {
    pub use shape_pipeline::{shape, shape_with_plan};
}
