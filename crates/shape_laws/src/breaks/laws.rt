//! Laws of our own, which rustybuzz has not: stages on characters of a text that is broken into two.
ghost use Rattle.shape_laws.specs.Breaks.Laws.{BegunTextsDivide, FractionsDivide, LettersDivide, NormalizingDivides, PlainRulesHaveNoStages, PlainTextsDivide, RangesDivide, RotationDivides};

/// The first pipeline stage.
pub fn law_begun_texts_divide()
    ensures { BegunTextsDivide }
{}

/// Mirrored characters and vertical forms.
pub fn law_rotation_divides()
    ensures { RotationDivides }
{}

/// Normalizing, where each of the two texts is normalized by itself.
pub fn law_normalizing_divides()
    ensures { NormalizingDivides }
{}

/// The forms of letters, where the contexts show the letters near.
pub fn law_letters_divide()
    ensures { LettersDivide }
{}

/// The masks of features that are requested for ranges.
pub fn law_ranges_divide()
    ensures { RangesDivide }
{}

/// The masks of fractions.
pub fn law_fractions_divide()
    ensures { FractionsDivide }
{}

/// A shaper without hooks has no stages of its own.
pub fn law_plain_rules_have_no_stages()
    ensures { PlainRulesHaveNoStages }
{}

/// A text of a shaper without stages of its own there, up to the masks of ranges.
pub fn law_plain_texts_divide()
    ensures { PlainTextsDivide }
{}
