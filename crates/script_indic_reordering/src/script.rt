//! How scripts encode a reph, and the masks of the features by position (rustybuzz: hb/ot_shaper_indic.rs).

use buffer_glyphs::info::hb_mask_t;

/// How a syllable begins that has a reph.
#[derive(Clone, Copy)]
pub enum RephMode {
    /// Ra and a halant, with no joiner after them.
    Implicit,
    /// Ra, a halant and a ZWJ.
    Explicit,
    /// A character of its own.
    Logical,
}

/// The masks of the features that glyphs get by their positions.
#[derive(Clone, Copy)]
pub struct IndicMasks {
    /// Of a reph.
    pub rphf: hb_mask_t,
    /// Of all before the base: half, and in some scripts blwf.
    pub before_base: hb_mask_t,
    /// Of all after the base: blwf, abvf and pstf together.
    pub after_base: hb_mask_t,
    /// Of half alone, which glyphs before a ZWNJ lose.
    pub half: hb_mask_t,
    /// Of a halant and the consonant after it that form together.
    pub pref: hb_mask_t,
    /// Of a left matra that begins a word.
    pub init: hb_mask_t,
}
