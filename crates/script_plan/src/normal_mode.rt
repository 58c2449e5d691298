//! The numbers of the forms in which shapers prefer characters (rustybuzz: hb/ot_shape_normalize.rs).
ghost use Rattle.std.specs.Prelude.{◌≡◌, ◌≢◌, pos};
ghost use Rattle.script_plan.specs.NormalModes.{mode_number};

use buffer_properties::NormalizationMode;

/// The form in which a shaper prefers characters: one of the constants below.
pub type hb_ot_shape_normalization_mode_t = i32;

/// Characters that the font has stay whole, and nothing is composed.
pub const HB_OT_SHAPE_NORMALIZATION_MODE_NONE: i32 = 0;

/// Characters are split as far as the font has the pieces.
pub const HB_OT_SHAPE_NORMALIZATION_MODE_DECOMPOSED: i32 = 1;

/// Combining marks are composed with their base; a character without marks that the font has stays whole.
pub const HB_OT_SHAPE_NORMALIZATION_MODE_COMPOSED_DIACRITICS: i32 = 2;

/// Characters are split as far as the font has the pieces, and combining marks composed again.
pub const HB_OT_SHAPE_NORMALIZATION_MODE_COMPOSED_DIACRITICS_NO_SHORT_CIRCUIT: i32 = 3;

/// As `HB_OT_SHAPE_NORMALIZATION_MODE_COMPOSED_DIACRITICS`.
pub const HB_OT_SHAPE_NORMALIZATION_MODE_AUTO: i32 = 4;

/// The mode of shapers that have no preference.
pub const HB_OT_SHAPE_NORMALIZATION_MODE_DEFAULT: i32 = 4;

/// The mode of a number; a number that no mode has is AUTO's.
pub fn mode_of(number: hb_ot_shape_normalization_mode_t) -> NormalizationMode
    ensures none { number ≡ pos 0 → result ≡ NormalizationMode.None }
    ensures decomposed { number ≡ pos 1 → result ≡ NormalizationMode.Decomposed }
    ensures composed { number ≡ pos 2 → result ≡ NormalizationMode.ComposedDiacritics }
    ensures whole { number ≡ pos 3 → result ≡ NormalizationMode.ComposedDiacriticsNoShortCircuit }
    ensures other { number ≢ pos 0 → number ≢ pos 1 → number ≢ pos 2 → number ≢ pos 3
        → result ≡ NormalizationMode.Auto }
{
    match number {
        0 => NormalizationMode::None,
        1 => NormalizationMode::Decomposed,
        2 => NormalizationMode::ComposedDiacritics,
        3 => NormalizationMode::ComposedDiacriticsNoShortCircuit,
        _ => NormalizationMode::Auto,
    }
}

/// The number of a mode.
pub fn mode_number(mode: NormalizationMode) -> hb_ot_shape_normalization_mode_t
    ensures { result ≡ mode_number mode }
{
    match mode {
        NormalizationMode::None => HB_OT_SHAPE_NORMALIZATION_MODE_NONE,
        NormalizationMode::Decomposed => HB_OT_SHAPE_NORMALIZATION_MODE_DECOMPOSED,
        NormalizationMode::ComposedDiacritics => HB_OT_SHAPE_NORMALIZATION_MODE_COMPOSED_DIACRITICS,
        NormalizationMode::ComposedDiacriticsNoShortCircuit => {
            HB_OT_SHAPE_NORMALIZATION_MODE_COMPOSED_DIACRITICS_NO_SHORT_CIRCUIT
        }
        NormalizationMode::Auto => HB_OT_SHAPE_NORMALIZATION_MODE_AUTO,
    }
}
