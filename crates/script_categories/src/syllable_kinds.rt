//! The kinds of syllables of each shaper's machine, with their names.
//!
//! The lists of the shapers' kinds have one form; each shaper numbers its own.

/// The bits of a syllable byte that hold the kind; the others hold a serial number.
pub const SYLLABLE_KIND: u8 = 15;

/// Kinds of the Indic shaper's syllables.
pub mod indic {
    pub const CONSONANT_SYLLABLE: u8 = 0;

    pub const VOWEL_SYLLABLE: u8 = 1;

    pub const STANDALONE_CLUSTER: u8 = 2;

    pub const SYMBOL_CLUSTER: u8 = 3;

    pub const BROKEN_CLUSTER: u8 = 4;

    pub const NON_INDIC_CLUSTER: u8 = 5;

    pub(crate) const NAMES: [(&str, u8); 6] = [
        ("consonant", CONSONANT_SYLLABLE),
        ("vowel", VOWEL_SYLLABLE),
        ("standalone", STANDALONE_CLUSTER),
        ("symbol", SYMBOL_CLUSTER),
        ("broken", BROKEN_CLUSTER),
        ("non", NON_INDIC_CLUSTER),
    ];
}

/// Kinds of the Khmer shaper's syllables.
pub mod khmer {
    pub const CONSONANT_SYLLABLE: u8 = 0;

    pub const BROKEN_CLUSTER: u8 = 1;

    pub const NON_KHMER_CLUSTER: u8 = 2;

    pub(crate) const NAMES: [(&str, u8); 3] = [
        ("consonant", CONSONANT_SYLLABLE),
        ("broken", BROKEN_CLUSTER),
        ("non", NON_KHMER_CLUSTER),
    ];
}

/// Kinds of the Myanmar shaper's syllables.
pub mod myanmar {
    pub const CONSONANT_SYLLABLE: u8 = 0;

    pub const BROKEN_CLUSTER: u8 = 1;

    pub const NON_MYANMAR_CLUSTER: u8 = 2;

    pub(crate) const NAMES: [(&str, u8); 3] = [
        ("consonant", CONSONANT_SYLLABLE),
        ("broken", BROKEN_CLUSTER),
        ("non", NON_MYANMAR_CLUSTER),
    ];
}

/// Kinds of the universal shaper's syllables.
pub mod universal {
    pub const INDEPENDENT_CLUSTER: u8 = 0;

    pub const VIRAMA_TERMINATED_CLUSTER: u8 = 1;

    pub const SAKOT_TERMINATED_CLUSTER: u8 = 2;

    pub const STANDARD_CLUSTER: u8 = 3;

    pub const NUMBER_JOINER_TERMINATED_CLUSTER: u8 = 4;

    pub const NUMERAL_CLUSTER: u8 = 5;

    pub const SYMBOL_CLUSTER: u8 = 6;

    pub const HIEROGLYPH_CLUSTER: u8 = 7;

    pub const BROKEN_CLUSTER: u8 = 8;

    pub const NON_CLUSTER: u8 = 9;

    pub(crate) const NAMES: [(&str, u8); 10] = [
        ("independent", INDEPENDENT_CLUSTER),
        ("virama", VIRAMA_TERMINATED_CLUSTER),
        ("sakot", SAKOT_TERMINATED_CLUSTER),
        ("standard", STANDARD_CLUSTER),
        ("number_joiner", NUMBER_JOINER_TERMINATED_CLUSTER),
        ("numeral", NUMERAL_CLUSTER),
        ("symbol", SYMBOL_CLUSTER),
        ("hieroglyph", HIEROGLYPH_CLUSTER),
        ("broken", BROKEN_CLUSTER),
        ("non", NON_CLUSTER),
    ];
}
