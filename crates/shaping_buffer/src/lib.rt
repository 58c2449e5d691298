//! The buffer layer under one name: glyph records, texts, characters, the buffer and its two wrappers, printing.
#![tactic(auto)]

pub mod hb;
pub mod laws;

pub use buffer_common::constants::BufferFlags;
pub use buffer_common::direction::{Direction, InvalidDirection};
pub use buffer_common::language::{Language, LanguageFault};
pub use buffer_common::language_tags::LanguageTags;
pub use buffer_common::script::{InvalidScript, Script};
pub use buffer_common::script_tags::tags_from_script_and_language;
pub use buffer_common::tag::{Tag, TagExt, hb_tag_t};
pub use buffer_common::{constants, script};
pub use buffer_core::buffer::hb_buffer_t;
pub use buffer_glyphs::cause::ShapeCause;
pub use buffer_glyphs::flags::{GlyphPropsFlags, SerializeFlags, UnicodeProps};
pub use buffer_glyphs::info::{
    DEFINED, SAFE_TO_INSERT_TATWEEL, UNSAFE_TO_BREAK, UNSAFE_TO_CONCAT, hb_codepoint_t,
    hb_glyph_info_t, hb_glyph_info_t as GlyphInfo, hb_mask_t,
};
pub use buffer_glyphs::level::{
    BufferClusterLevel, HB_BUFFER_CLUSTER_LEVEL_CHARACTERS, HB_BUFFER_CLUSTER_LEVEL_DEFAULT,
    HB_BUFFER_CLUSTER_LEVEL_GRAPHEMES, HB_BUFFER_CLUSTER_LEVEL_MONOTONE_CHARACTERS,
    HB_BUFFER_CLUSTER_LEVEL_MONOTONE_GRAPHEMES, hb_buffer_cluster_level_t,
};
pub use buffer_glyphs::names::{GlyphId, GlyphNames, hb_glyph_extents_t};
pub use buffer_glyphs::position::GlyphPosition;
pub use buffer_tags::feature::{
    Feature, HB_FEATURE_GLOBAL_END, HB_FEATURE_GLOBAL_START, InvalidFeature,
};
pub use buffer_tags::language_table::{LanguageRow, LanguageTable};
pub use buffer_tags::text_parser::TextParser;
pub use buffer_unicode::{
    CharExt, GeneralCategoryExt, UnicodeRows, category, hb_unicode_general_category_t, space,
};
pub use buffer_unicode_tables::character::CharTablesExt;
pub use buffer_unicode_tables::{
    LawFault, TablesFault, UnicodeTables, compose, compose_hangul, decompose, decompose_hangul,
};
pub use buffer_wrappers::glyphs::GlyphBuffer;
pub use buffer_wrappers::serialize;
pub use buffer_wrappers::unicode_buffer::UnicodeBuffer;
