//! The layer's names where rustybuzz has them, by its files under src/hb.

/// Records of glyphs, and the buffer.
pub mod buffer {
    pub use buffer_common::constants::{
        BufferFlags, HB_BUFFER_SCRATCH_FLAG_DEFAULT, HB_BUFFER_SCRATCH_FLAG_HAS_BROKEN_SYLLABLE,
        HB_BUFFER_SCRATCH_FLAG_HAS_CGJ, HB_BUFFER_SCRATCH_FLAG_HAS_DEFAULT_IGNORABLES,
        HB_BUFFER_SCRATCH_FLAG_HAS_GLYPH_FLAGS, HB_BUFFER_SCRATCH_FLAG_HAS_GPOS_ATTACHMENT,
        HB_BUFFER_SCRATCH_FLAG_HAS_NON_ASCII, HB_BUFFER_SCRATCH_FLAG_HAS_SPACE_FALLBACK,
        HB_BUFFER_SCRATCH_FLAG_HAS_VARIATION_SELECTOR_FALLBACK, HB_BUFFER_SCRATCH_FLAG_SHAPER0,
        hb_buffer_scratch_flags_t,
    };
    pub use buffer_core::buffer::hb_buffer_t;
    pub use buffer_glyphs::flags::{GlyphPropsFlags, SerializeFlags, UnicodeProps};
    pub use buffer_glyphs::info::hb_glyph_info_t;
    pub use buffer_glyphs::level::{
        BufferClusterLevel, HB_BUFFER_CLUSTER_LEVEL_CHARACTERS, HB_BUFFER_CLUSTER_LEVEL_DEFAULT,
        HB_BUFFER_CLUSTER_LEVEL_GRAPHEMES, HB_BUFFER_CLUSTER_LEVEL_MONOTONE_CHARACTERS,
        HB_BUFFER_CLUSTER_LEVEL_MONOTONE_GRAPHEMES, hb_buffer_cluster_level_t,
    };
    pub use buffer_glyphs::position::GlyphPosition;
    pub use buffer_wrappers::glyphs::GlyphBuffer;
    pub use buffer_wrappers::unicode_buffer::UnicodeBuffer;

    /// What a mask says of a glyph beside its features.
    pub mod glyph_flag {
        pub use buffer_glyphs::info::{
            DEFINED, SAFE_TO_INSERT_TATWEEL, UNSAFE_TO_BREAK, UNSAFE_TO_CONCAT,
        };
    }
}

/// Tags, scripts, languages and features.
pub mod common {
    pub use buffer_common::direction::Direction;
    pub use buffer_common::language::Language;
    pub use buffer_common::script::Script;
    pub use buffer_common::tag::{Tag, TagExt, hb_tag_t};
    pub use buffer_glyphs::info::{hb_codepoint_t, hb_mask_t};
    pub use buffer_tags::feature::{Feature, HB_FEATURE_GLOBAL_END, HB_FEATURE_GLOBAL_START};
}

/// The tags that a text's script and language have in fonts.
pub mod tag {
    pub use buffer_common::script_tags::tags_from_script_and_language;
}

/// The parser of features.
pub mod text_parser {
    pub use buffer_tags::text_parser::TextParser;
}

/// Properties of characters.
pub mod unicode {
    pub use buffer_unicode::{CharExt, GeneralCategoryExt, hb_unicode_general_category_t};
    pub use buffer_unicode_tables::character::CharTablesExt;
    pub use buffer_unicode_tables::{compose, compose_hangul, decompose, decompose_hangul};
}
