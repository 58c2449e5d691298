//! How far a shaper wants characters split and composed (rustybuzz: hb/ot_shape_normalize.rs).

/// How many combining marks a run may have to be sorted (HarfBuzz: `HB_OT_SHAPE_MAX_COMBINING_MARKS`).
pub const MAX_COMBINING_MARKS: usize = 32;

/// The form of a text that a shaper prefers (HarfBuzz: `hb_ot_shape_normalization_mode_t`).
#[derive(Clone, Copy)]
pub enum NormalizationMode {
    /// Characters that the font has stay whole, and nothing is composed.
    None,
    /// Characters are split as far as the font has the pieces.
    Decomposed,
    /// Combining marks are composed with their base; a character without marks that the font has stays whole.
    ComposedDiacritics,
    /// Characters are split as far as the font has the pieces, and combining marks composed again.
    ComposedDiacriticsNoShortCircuit,
    /// As `ComposedDiacritics`.
    Auto,
}

/// How far characters are split.
#[derive(Clone, Copy)]
pub enum Reach {
    /// Only where the font lacks them.
    Least,
    /// Wherever the font has the pieces.
    Greatest,
}
