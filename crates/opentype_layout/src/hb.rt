//! The layer's names where rustybuzz has them, by its files under src/hb.

/// The font.
pub mod face {
    pub use buffer_glyphs::names::hb_glyph_extents_t;
    pub use layout_face::hb_font_t;
}

/// Properties of glyphs, and what fonts have.
pub mod ot_layout {
    pub use buffer_glyphs::ligature_words::{
        _hb_glyph_info_get_lig_comp, _hb_glyph_info_get_lig_id, _hb_glyph_info_get_lig_num_comps,
        _hb_glyph_info_is_mark, _hb_glyph_info_ligated,
    };
    pub use buffer_properties::glyph_words::{
        _hb_glyph_info_clear_default_ignorable, _hb_glyph_info_get_general_category,
        _hb_glyph_info_get_modified_combining_class,
        _hb_glyph_info_get_unicode_space_fallback_type, _hb_glyph_info_is_continuation,
        _hb_glyph_info_is_default_ignorable, _hb_glyph_info_is_unicode_mark,
        _hb_glyph_info_is_unicode_space, _hb_glyph_info_is_variation_selector,
        _hb_glyph_info_is_zwj, _hb_glyph_info_is_zwnj, _hb_glyph_info_set_continuation,
        _hb_glyph_info_set_general_category, _hb_glyph_info_set_modified_combining_class,
        _hb_glyph_info_set_unicode_space_fallback_type, _hb_glyph_info_set_variation_selector,
    };
    pub use buffer_stages::layout_stages::{
        _hb_clear_substitution_flags, _hb_ot_layout_reverse_graphemes,
    };
    pub use layout_contexts::MAX_NESTING_LEVEL;
    pub use layout_face::face::hb_ot_layout_has_glyph_classes;
    pub use layout_face::layout::{LayoutLookup, LayoutTable};
    pub use layout_gsub::glyph_classes::{
        _hb_ot_layout_set_glyph_props, hb_ot_layout_substitute_start,
    };
    pub use layout_map_features::per_table::TableIndex;
    pub use layout_match::MAX_CONTEXT_LENGTH;
    pub use layout_positioning::kerning::{
        hb_ot_layout_has_cross_kerning, hb_ot_layout_has_kerning, hb_ot_layout_has_machine_kerning,
    };
}

/// What both tables have in common.
pub mod ot_layout_common {
    pub use layout_common::coverage::CoverageExt;
    pub use layout_face::positioning::{PositioningLookup, PositioningTable};
    pub use layout_face::substitution::{SubstLookup, SubstitutionTable};
    pub use layout_tables::choice::LayoutTableExt;

    /// The bits of a lookup flag.
    pub mod lookup_flags {
        pub use layout_common::flags::{
            IGNORE_BASE_GLYPHS, IGNORE_FLAGS, IGNORE_LIGATURES, IGNORE_MARKS,
            MARK_ATTACHMENT_TYPE_MASK, RIGHT_TO_LEFT, USE_MARK_FILTERING_SET,
        };
    }
}

/// Positioning.
pub mod ot_layout_gpos_table {
    pub use layout_gpos::apply::Apply;
    pub use layout_positioning::nesting::Nesting;
    pub use layout_positioning::position::{apply_layout_table, position};

    /// How a glyph is attached to another one.
    pub mod attach_type {
        pub use buffer_glyphs::position::attach_type::{CURSIVE, MARK};
    }

    /// Before and after the lookups.
    pub mod GPOS {
        pub use layout_offsets::finish::{
            position_finish_advances, position_finish_offsets, position_start,
        };
    }
}

/// Substitution.
pub mod ot_layout_gsub_table {
    pub use buffer_stages::pause::Pause;
    pub use layout_gsub::apply::Apply;
    pub use layout_substitution::nesting::Nesting;
    pub use layout_substitution::substitute::{apply_layout_table, substitute};
}

/// Matching, and what is done at a match.
pub mod ot_layout_gsubgpos {
    pub use layout_face::would_apply::lookup::{context_would_apply, would_apply};
    pub use layout_face::would_apply::{WouldApply, WouldApplyContext};
    pub use layout_gsub::context::GlyphReplacement;
    pub use layout_gsub::ligate::ligate_input;
    pub use layout_match::{
        GlyphSearch, MatchPositions, MatchSequence, hb_ot_apply_context_t, match_backtrack,
        match_class, match_coverage, match_glyph, match_input, match_lookahead, match_t,
        skipping_iterator_t,
    };
}

/// Maps of features.
pub mod ot_map {
    pub use layout_map::builder::hb_ot_map_builder_t;
    pub use layout_map::chosen_feature::feature_map_t;
    pub use layout_map::map::hb_ot_map_t;
    pub use layout_map::stages::StageMap;
    pub use layout_map_features::field::{MAX_BITS, MAX_VALUE};
    pub use layout_map_features::flags::{
        F_GLOBAL, F_GLOBAL_HAS_FALLBACK, F_GLOBAL_MANUAL_JOINERS, F_GLOBAL_SEARCH, F_HAS_FALLBACK,
        F_MANUAL_JOINERS, F_MANUAL_ZWJ, F_MANUAL_ZWNJ, F_NONE, F_PER_SYLLABLE, F_RANDOM,
        hb_ot_map_feature_flags_t,
    };
    pub use layout_map_features::lookup::lookup_map_t;
}

/// Sets of glyphs by buckets.
pub mod set_digest {
    pub use layout_common::digest::{
        hb_set_digest_bits_pattern_t, hb_set_digest_combiner_t, hb_set_digest_ext, hb_set_digest_t,
    };
}
