//! The rules of scripts keep the parts of a text whatever its clusters are.
ghost use Rattle.script_dispatch.specs.Keeping.{MasksKeepPlainly, OrdersKeepPlainly, SyllablesKeepPlainly, TextsKeepPlainly};

/// The stages on characters keep the parts: vowels of Thai and Lao, private forms of Thai, syllables of Hangul.
pub fn law_texts_keep_plainly()
    ensures { TextsKeepPlainly }
{}

/// The stages that find syllables keep the parts, and so do those that set features by syllable and record
/// substitutions.
pub fn law_syllables_keep_plainly()
    ensures { SyllablesKeepPlainly }
{}

/// The stages that insert dotted circles and reorder syllables keep the parts, those of the Indic, the Khmer, the
/// Myanmar and the universal shaper.
pub fn law_orders_keep_plainly()
    ensures { OrdersKeepPlainly }
{}

/// The stages that write masks and properties keep the parts: forms of joining letters and of jamo, categories,
/// positions in syllables, and which glyphs are tiles.
pub fn law_masks_keep_plainly()
    ensures { MasksKeepPlainly }
{}
