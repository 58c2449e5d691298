//! Laws of our own, which rustybuzz has not: texts that are broken into two, up to the masks of ranges, by their shapers.
ghost use Rattle.shape_laws.specs.Breaks.ChainLaws.{ArabicCharactersDivide, ArabicTextsDivide, AsciiKnowsGraphemes, CharactersAreShown, CharactersDivide, CharactersNormalizeApart, HangulCharactersDivide, HangulTextsDivide, HebrewRulesHaveNoStages, JamoMasksKeepBroken, MarkOrdersEndUnjoined, MarkOrdersKeepTypes, MarkOrdersRewrite, NearestContextsShow, StagesDivide, TextsDivide, ThaiCharactersDivide, ThaiTextsDivide, TonesAreMarks};

/// The order of a run of marks by each shaper.
pub fn law_mark_orders_rewrite()
    ensures { MarkOrdersRewrite }
{}

/// The Hebrew shaper has no stages of its own but its order of marks.
pub fn law_hebrew_rules_have_no_stages()
    ensures { HebrewRulesHaveNoStages }
{}

/// A text of a shaper whose own stages keep it broken, up to the masks of ranges.
pub fn law_texts_divide()
    ensures { TextsDivide }
{}

/// A text of the Arabic shaper, which shapes Syriac too, up to the masks of ranges.
pub fn law_arabic_texts_divide()
    ensures { ArabicTextsDivide }
{}

/// The order of a run of marks without U+034F by each shaper.
pub fn law_mark_orders_end_unjoined()
    ensures { MarkOrdersEndUnjoined }
{}

/// A text at normalizing, by the characters of the two that it is broken into.
pub fn law_characters_normalize_apart()
    ensures { CharactersNormalizeApart }
{}

/// A text of a shaper without stages of its own, up to the masks of ranges, by the characters of the two.
pub fn law_characters_divide()
    ensures { CharactersDivide }
{}

/// The order of a run of marks that join nothing by each shaper.
pub fn law_mark_orders_keep_types()
    ensures { MarkOrdersKeepTypes }
{}

/// Contexts of the nearest characters.
pub fn law_nearest_contexts_show()
    ensures { NearestContextsShow }
{}

/// Contexts of a text whose letters get their forms, by the characters of the two that it is broken into.
pub fn law_characters_are_shown()
    ensures { CharactersAreShown }
{}

/// A text of the Arabic shaper, up to the masks of ranges, by the characters of the two.
pub fn law_arabic_characters_divide()
    ensures { ArabicCharactersDivide }
{}

/// Graphemes of several characters, where no ASCII character is a mark.
pub fn law_ascii_knows_graphemes()
    ensures { AsciiKnowsGraphemes }
{}

/// A text of a shaper whose own stages keep it broken where they come to it.
pub fn law_stages_divide()
    ensures { StagesDivide }
{}

/// A text of the Thai shaper, which shapes Lao too, up to the masks of ranges.
pub fn law_thai_texts_divide()
    ensures { ThaiTextsDivide }
{}

/// The masks of Hangul jamo.
pub fn law_jamo_masks_keep_broken()
    ensures { JamoMasksKeepBroken }
{}

/// A text of the Thai shaper, up to the masks of ranges, by the characters of the two.
pub fn law_thai_characters_divide()
    ensures { ThaiCharactersDivide }
{}

/// A text of the Hangul shaper, up to the masks of ranges.
pub fn law_hangul_texts_divide()
    ensures { HangulTextsDivide }
{}

/// The tone marks of Hangul (U+302E, U+302F) are marks.
pub fn law_tones_are_marks()
    ensures { TonesAreMarks }
{}

/// A text of the Hangul shaper, up to the masks of ranges, by the characters of the two.
pub fn law_hangul_characters_divide()
    ensures { HangulCharactersDivide }
{}
