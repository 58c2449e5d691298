//! What a user of the library needs: a text and a font file become positioned glyphs. The names are rustybuzz's where it
//! has them, at the root and, by its files, in `hb`; `hb_shape` has the calls of the program, and `laws` what holds of all
//! results. `read_font` reads a font of a font file, `read_font_json` one of JSON.
#![tactic(auto)]

pub mod hb;
pub mod hb_shape;
pub mod laws;

pub use buffer_common::constants::BufferFlags;
pub use buffer_common::direction::{Direction, InvalidDirection};
pub use buffer_common::language::{Language, LanguageFault};
pub use buffer_common::language_tags::LanguageTags;
pub use buffer_common::script::{InvalidScript, Script};
pub use buffer_common::tag::{Tag, TagExt};
pub use buffer_glyphs::cause::ShapeCause;
pub use buffer_glyphs::flags::SerializeFlags;
pub use buffer_glyphs::info::hb_glyph_info_t as GlyphInfo;
pub use buffer_glyphs::level::BufferClusterLevel;
pub use buffer_glyphs::names::{GlyphId, GlyphNames, hb_glyph_extents_t};
pub use buffer_glyphs::position::GlyphPosition;
pub use buffer_tags::feature::{Feature, InvalidFeature};
pub use buffer_tags::language_table::{LanguageRow, LanguageTable};
pub use buffer_unicode::UnicodeRows;
pub use buffer_unicode_tables::{LawFault, TablesFault, UnicodeTables};
pub use buffer_wrappers::glyphs::GlyphBuffer;
pub use buffer_wrappers::unicode_buffer::UnicodeBuffer;
pub use font_bytes::fault::TableFault;
pub use font_file::{FontFault, FontParts, FontTable, font_count, read_font};
pub use layout_face::{Face, FaceParts};
pub use plan_cache::{CachedPlan, PlanCache};
pub use script_categories::{
    Accept, Step, SyllableMachine, SyllableMachines, SyllableSpans, SyllableTable,
};
pub use shape_pipeline::{
    ShapeFault, ShapePlan, hb_shape_data_t, nested_lookups_left, shape, shape_with_plan,
};
pub use shape_premises::{are_equivalent, has_full_expansion, has_short_runs, is_regular};
pub use shell_face_json::read_face_text;
pub use shell_fonts::{library_tables as default_tables, read_font_input};
pub use shell_json::fault::JsonFault;
pub use shell_readers::fault::RunFault;
pub use shell_readers::input::{RunInput, read_font as read_font_json, read_input};
pub use shell_readers::tables::{TextTables, read_lawful_tables};
