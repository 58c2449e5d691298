//! Requests for features (rustybuzz: hb/ot_map.rs, `feature_info_t`).
ghost use Rattle.std.specs.Prelude.{◌≡◌, [], if◌then◌else◌};
ghost use Rattle.layout_map_features.specs.Requests.{has_flag, is_global, request_with_later, merged_request};

use crate::flags::{
    F_GLOBAL, F_GLOBAL_SEARCH, F_HAS_FALLBACK, F_MANUAL_ZWJ, F_MANUAL_ZWNJ, F_PER_SYLLABLE,
    F_RANDOM, hb_ot_map_feature_flags_t,
};
use crate::per_table::PerTable;
use buffer_common::tag::Tag;

/// A request to give a feature a value: for every glyph with `F_GLOBAL`, else for ranges. Its stage for each table is
/// the number of pauses before it.
#[derive(Clone, Copy)]
pub struct FeatureRequest {
    pub tag: Tag,
    pub flags: hb_ot_map_feature_flags_t,
    pub value: u32,
    pub stage: PerTable<usize>,
}

/// The merged requests for one feature.
#[derive(Clone, Copy)]
pub struct MergedRequest {
    pub tag: Tag,
    /// Every glyph has the value, and no range has another.
    pub is_global: bool,
    /// The greatest value that a glyph can have.
    pub max_value: u32,
    /// The value of glyphs outside the ranges.
    pub default_value: u32,
    pub stage: PerTable<usize>,
    pub has_fallback: bool,
    pub global_search: bool,
    pub auto_zwnj: bool,
    pub auto_zwj: bool,
    pub random: bool,
    pub per_syllable: bool,
}

impl FeatureRequest {
    /// Whether the request has a flag.
    pub fn has_flag(&self, flag: u32) -> bool
        ensures { result ≡ has_flag flag self.now }
    {
        self.flags & flag != 0
    }

    /// Its value where it is for every glyph, else the other value.
    fn value_or(&self, other: u32) -> u32
        ensures { result ≡ (if is_global self.now then self.now.value else other) }
    {
        if self.has_flag(F_GLOBAL) {
            self.value
        } else {
            other
        }
    }
}

impl MergedRequest {
    /// One request as merged requests.
    pub fn new(request: &FeatureRequest) -> MergedRequest
        ensures { result ≡ merged_request request.now [] }
    {
        MergedRequest {
            tag: request.tag,
            is_global: request.has_flag(F_GLOBAL),
            max_value: request.value,
            default_value: request.value_or(0),
            stage: request.stage,
            has_fallback: request.has_flag(F_HAS_FALLBACK),
            global_search: request.has_flag(F_GLOBAL_SEARCH),
            auto_zwnj: !request.has_flag(F_MANUAL_ZWNJ),
            auto_zwj: !request.has_flag(F_MANUAL_ZWJ),
            random: request.has_flag(F_RANDOM),
            per_syllable: request.has_flag(F_PER_SYLLABLE),
        }
    }

    /// The merged requests with a later one for the same feature.
    pub fn with(&self, request: &FeatureRequest) -> MergedRequest
        ensures { result ≡ request_with_later self.now request.now }
    {
        let is_global = request.has_flag(F_GLOBAL);
        MergedRequest {
            is_global,
            max_value: request.value_or(self.max_value.max(request.value)),
            default_value: request.value_or(self.default_value),
            stage: PerTable {
                gsub: self.stage.gsub.min(request.stage.gsub),
                gpos: self.stage.gpos.min(request.stage.gpos),
            },
            has_fallback: self.has_fallback || request.has_flag(F_HAS_FALLBACK),
            ..*self
        }
    }
}
