//! Laws of feature bits, merged requests and lookups.
ghost use Rattle.std.specs.Prelude.{◌≡◌, [], ◌∷◌};
ghost use Rattle.layout_map_features.specs.Laws.{LookupsRise, OwnBitsAreApart, OwnBitsAreFree, TagsRise};

use crate::flags::{
    F_GLOBAL, F_GLOBAL_HAS_FALLBACK, F_GLOBAL_MANUAL_JOINERS, F_GLOBAL_SEARCH, F_HAS_FALLBACK,
    F_MANUAL_JOINERS, F_MANUAL_ZWJ, F_MANUAL_ZWNJ, F_NONE, F_PER_SYLLABLE, F_RANDOM,
};

/// A feature's own bits are no glyph flags, and not the global bit.
pub fn law_own_bits_are_free()
    ensures { OwnBitsAreFree }
{}

/// Two features with bits of their own share none.
pub fn law_own_bits_are_apart()
    ensures { OwnBitsAreApart }
{}

/// The tags of merged requests rise strictly.
#[tactic(auto, using(crate::proofs::Rising::tags_rise))]
pub fn law_tags_rise()
    ensures { TagsRise }
{}

/// The lookups of a stage rise strictly, and are below the table's count.
#[tactic(auto, using(crate::proofs::Rising::lookups_rise))]
pub fn law_lookups_rise()
    ensures { LookupsRise }
{}

/// The flags of requests: one bit each, and three sums of them.
pub fn feature_flag_numbers() -> [u32; 11]
    ensures { result ≡ 0 ∷ 1 ∷ 2 ∷ 4 ∷ 8 ∷ 12 ∷ 13 ∷ 3 ∷ 16 ∷ 32 ∷ 64 ∷ [] }
{
    [
        F_NONE,
        F_GLOBAL,
        F_HAS_FALLBACK,
        F_MANUAL_ZWNJ,
        F_MANUAL_ZWJ,
        F_MANUAL_JOINERS,
        F_GLOBAL_MANUAL_JOINERS,
        F_GLOBAL_HAS_FALLBACK,
        F_GLOBAL_SEARCH,
        F_RANDOM,
        F_PER_SYLLABLE,
    ]
}
