//! The layer's names where rustybuzz has them, by its files under src/hb.

/// Arabic: how letters connect, and words that are stretched.
pub mod ot_shaper_arabic {
    pub use script_arabic::masks::{arabic_shape_plan_t, data_create_arabic};
    pub use script_arabic::pauses::record_stch;
    pub use script_categories::arabic_action_t::is_stch;
    pub use script_categories::hb_arabic_joining_type_t;
    pub use script_categories::hb_ot_script_shaper_t::ARABIC_SHAPER;
    pub use script_joining::setup_masks_inner;

    /// The forms of a letter, and the kinds of tiles.
    pub mod arabic_action_t {
        pub use script_categories::arabic_action_t::{
            FIN2, FIN3, FINA, INIT, ISOL, MED2, MEDI, NONE, STRETCHING_FIXED, STRETCHING_REPEATING,
        };
    }
}

/// Hangul.
pub mod ot_shaper_hangul {
    pub use script_categories::hb_ot_script_shaper_t::HANGUL_SHAPER;
    pub use script_hangul::masks::JamoMasks;
}

/// Hebrew.
pub mod ot_shaper_hebrew {
    pub use script_categories::hb_ot_script_shaper_t::HEBREW_SHAPER;
}

/// The nine Indic scripts.
pub mod ot_shaper_indic {
    pub use script_categories::hb_ot_script_shaper_t::INDIC_SHAPER;
    pub use script_indic::would_substitute::IndicWouldSubstituteFeature;

    /// The features of syllables, in the order in which they are requested.
    pub mod indic_feature {
        pub use script_categories::indic_feature::{
            ABVF, ABVS, AKHN, BLWF, BLWS, CJCT, HALF, HALN, INIT, NUKT, PREF, PRES, PSTF, PSTS,
            RKRF, RPHF, VATU,
        };
    }

    /// The categories of characters.
    pub mod ot_category_t {
        pub use script_categories::ot_category_t::{
            Category, IV, OT_A, OT_As, OT_C, OT_CM, OT_CS, OT_DOTTEDCIRCLE, OT_GB, OT_H, OT_M,
            OT_MH, OT_ML, OT_MPst, OT_MR, OT_MW, OT_MY, OT_N, OT_PLACEHOLDER, OT_PT, OT_RS, OT_Ra,
            OT_Repha, OT_Robatic, OT_SM, OT_Symbol, OT_V, OT_VAbv, OT_VBlw, OT_VD, OT_VPre,
            OT_VPst, OT_VS, OT_X, OT_Xgroup, OT_Ygroup, OT_ZWJ, OT_ZWNJ,
        };
    }

    /// The positions in a syllable.
    pub mod ot_position_t {
        pub use script_categories::ot_position_t::{
            POS_ABOVE_C, POS_AFTER_MAIN, POS_AFTER_POST, POS_AFTER_SUB, POS_BASE_C,
            POS_BEFORE_POST, POS_BEFORE_SUB, POS_BELOW_C, POS_END, POS_POST_C, POS_PRE_C,
            POS_PRE_M, POS_RA_TO_BECOME_REPH, POS_SMVD, POS_START, Position,
        };
    }
}

/// Khmer.
pub mod ot_shaper_khmer {
    pub use script_categories::hb_ot_script_shaper_t::KHMER_SHAPER;
    pub use script_khmer::khmer::KhmerMasks;

    /// The features of syllables.
    pub mod khmer_feature {
        pub use script_categories::khmer_feature::{ABVF, BLWF, CFAR, PREF, PSTF};
    }
}

/// Myanmar.
pub mod ot_shaper_myanmar {
    pub use script_categories::hb_ot_script_shaper_t::{MYANMAR_SHAPER, MYANMAR_ZAWGYI_SHAPER};
}

/// What shapers of syllables share.
pub mod ot_shaper_syllabic {
    pub use script_syllabic::circles::insert_dotted_circles;
}

/// Thai and Lao.
pub mod ot_shaper_thai {
    pub use script_categories::hb_ot_script_shaper_t::THAI_SHAPER;
}

/// The universal shaper.
pub mod ot_shaper_use {
    pub use script_categories::hb_ot_script_shaper_t::UNIVERSAL_SHAPER;

    /// The categories of characters.
    pub mod category {
        pub use script_categories::category::{
            B, CGJ, CMAbv, CMBlw, CS, Category, FAbv, FBlw, FMAbv, FMBlw, FMPst, FPst, G, GB, H,
            HM, HN, HR, HVM, IS, J, MAbv, MBlw, MPre, MPst, N, O, R, RSV, S, SB, SE, SMAbv, SMBlw,
            SUB, Sk, VAbv, VBlw, VMAbv, VMBlw, VMPre, VMPst, VPre, VPst, WJ, ZWNJ,
        };
    }
}

/// The kinds of syllables, in a module for each shaper.
pub mod syllable_kinds {
    pub mod indic {
        pub use script_categories::syllable_kinds::indic::{
            BROKEN_CLUSTER, CONSONANT_SYLLABLE, NON_INDIC_CLUSTER, STANDALONE_CLUSTER,
            SYMBOL_CLUSTER, VOWEL_SYLLABLE,
        };
    }

    pub mod khmer {
        pub use script_categories::syllable_kinds::khmer::{
            BROKEN_CLUSTER, CONSONANT_SYLLABLE, NON_KHMER_CLUSTER,
        };
    }

    pub mod myanmar {
        pub use script_categories::syllable_kinds::myanmar::{
            BROKEN_CLUSTER, CONSONANT_SYLLABLE, NON_MYANMAR_CLUSTER,
        };
    }

    pub mod universal {
        pub use script_categories::syllable_kinds::universal::{
            BROKEN_CLUSTER, HIEROGLYPH_CLUSTER, INDEPENDENT_CLUSTER, NON_CLUSTER,
            NUMBER_JOINER_TERMINATED_CLUSTER, NUMERAL_CLUSTER, SAKOT_TERMINATED_CLUSTER,
            STANDARD_CLUSTER, SYMBOL_CLUSTER, VIRAMA_TERMINATED_CLUSTER,
        };
    }
}
