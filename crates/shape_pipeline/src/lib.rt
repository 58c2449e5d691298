//! Shaping: a text and a font become positioned glyphs. The reading of a whole text; a text shaped by a plan, its
//! pipeline stages in order with those of the plan's shaper; and `shape` with the shapers of this stack.
#![tactic(auto)]

mod classed_glyphs;
pub mod context;
pub mod fallback;
pub mod hb;
pub mod laws;
pub mod normalize_context;
mod normalizing;
pub mod reading_laws;
mod shape_stages;
pub mod shaping;

pub use buffer_common::language::Language;
pub use buffer_common::language_tags::LanguageTags;
pub use buffer_common::script::{Script, UNKNOWN};
pub use buffer_common::tag::Tag;
pub use buffer_core::buffer::hb_buffer_t;
pub use buffer_glyphs::cause::ShapeCause;
pub use buffer_tags::feature::Feature;
pub use buffer_wrappers::glyphs::GlyphBuffer;
pub use buffer_wrappers::unicode_buffer::UnicodeBuffer;
pub use layout_face::Face;
pub use script_categories::SyllableSpans;
pub use script_dispatch::{
    DEFAULT_SHAPER, DUMBER_SHAPER, hb_ot_any_shaper_t, hb_ot_shape_complex_categorize,
};
pub use script_plan::data::hb_shape_data_t;
pub use script_plan::hb_ot_shaper_t;
pub use script_plan::plan::hb_ot_shape_plan_t;
pub use shaping::{ShapeFault, nested_lookups_left, shape, shape_buffer, shape_with_plan};

/// A plan of the shapers of this stack.
pub type ShapePlan = hb_ot_shape_plan_t<hb_ot_any_shaper_t>;
