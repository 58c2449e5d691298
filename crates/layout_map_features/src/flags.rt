//! The flags of a feature request (rustybuzz: hb/ot_map.rs, `F_*`).
//!
//! Other lists of numbered names have the same form; each has its own type.
/// The flags of a feature request, joined by or.
pub type hb_ot_map_feature_flags_t = u32;

pub const F_NONE: u32 = 0;

/// The feature is on for every glyph, not for a range.
pub const F_GLOBAL: u32 = 1;

/// Where no table has the feature, the shaper has a fallback for it, so that it gets bits.
pub const F_HAS_FALLBACK: u32 = 2;

/// ZWNJ is not skipped when the feature's lookups match contexts.
pub const F_MANUAL_ZWNJ: u32 = 4;

/// ZWJ is not skipped when the feature's lookups match input.
pub const F_MANUAL_ZWJ: u32 = 8;

pub const F_MANUAL_JOINERS: u32 = 12;

pub const F_GLOBAL_MANUAL_JOINERS: u32 = 13;

pub const F_GLOBAL_HAS_FALLBACK: u32 = 3;

/// Where the language system lacks the feature, the first of its tag in the table's list is used.
pub const F_GLOBAL_SEARCH: u32 = 16;

/// An alternate is drawn at random.
pub const F_RANDOM: u32 = 32;

/// The feature's lookups match within syllables.
pub const F_PER_SYLLABLE: u32 = 64;
