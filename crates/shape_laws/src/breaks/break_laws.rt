//! Laws of our own, which rustybuzz has not: a text shows what the two texts show that it is cut into, wherever none of the
//! glyphs of a cluster is unsafe to break.
//!
//! What a caller of `shape` can test of each premise of `law_safe_breaks`, and of `law_planned_safe_breaks` for
//! `shape_with_plan`:
//! - The cut (`AreCut`): both pieces have characters, pushed by `UnicodeBuffer::add` with the clusters that they have in the
//!   whole, those of the earlier piece below the cut and those of the later one not below it. All three have the same script,
//!   direction, language and level, by the readers of `UnicodeBuffer`; the level is `MonotoneGraphemes` or
//!   `MonotoneCharacters`, and the flags have `PRODUCE_SAFE_BREAKS`; the earlier piece lacks `END_OF_TEXT`, and the later one
//!   `BEGINNING_OF_TEXT`. The line, after `guess_segment_properties`: `Direction::from_script` of its script.
//! - The shaper's premises (`MayBeCutBy`), by the field `shaper` of the plan that `hb_ot_shape_plan_t::new` makes for the
//!   whole. Of the default shaper, and those of Hebrew and Zawgyi: a mark is after the first character of both pieces or is in
//!   none, and the earlier piece doesn't end with U+034F. Of Arabic and Syriac, also: each piece's context has the nearest
//!   characters of the other one up to a letter (`law_nearest_contexts_show`), tables and font keep joining types
//!   (`KeepsTypes`), the line doesn't run from bottom to top, and no glyph is a tile of the feature `stch`. Of Thai and Lao:
//!   marks as `MayBreakThai` has it, and the later piece begins with no unassigned mark above. Of Hangul: marks as
//!   `MayBreakHangul` has it, and the later piece doesn't begin with a syllable and its tone mark, unless the font's glyph of
//!   that mark has advance 0 (`Face::glyph_h_advance`). Nothing is promised for Mongolian, nor for shapers that find
//!   syllables.
//! - Tables and font: no ASCII character is a mark (`AsciiHasNoMarks`); what stands for a character is a mark only where the
//!   character is one, and never U+034F in place of another (`KeepsMarks`).
//! - The limits (`HaveEnough`), of each of the three: more than 0 from `nested_lookups_left`; and shaping merges clusters at
//!   most 7 times, as often as there are numbers of ligatures. No call gives the number of these.
//! - The result: it has a glyph of the cluster, and none of these is `unsafe_to_break` (`MayBeCutAt`).
ghost use Rattle.shape_laws.specs.Breaks.SafeBreaks.{TextsShowBoth};
ghost use Rattle.shape_laws.specs.Breaks.SafeTexts.{PlannedTextsHaveSafeBreaks, SafeBreaks, SafeBreaksOfPlans};
ghost use Rattle.shape_laws.specs.Breaks.Seams.{GlyphsArePositionedApart, GlyphsAreSubstitutedApart};

/// Glyphs are substituted apart, where the first item of the later text stays its own.
pub fn law_glyphs_are_substituted_apart()
    ensures { GlyphsAreSubstitutedApart }
{}

/// Glyphs are positioned apart.
pub fn law_glyphs_are_positioned_apart()
    ensures { GlyphsArePositionedApart }
{}

/// All stages: a text that stays broken into two before its glyphs, which are substituted and positioned apart.
pub fn law_texts_show_both()
    ensures { TextsShowBoth }
{}

/// Safe breaks by plans of shapers that find no syllables: of a text that stays broken into two before its glyphs.
pub fn law_planned_texts_have_safe_breaks()
    ensures { PlannedTextsHaveSafeBreaks }
{}

/// Safe breaks of `shape_with_plan`, where the shaper's premises hold (`MayBeCutBy`).
pub fn law_planned_safe_breaks()
    ensures { SafeBreaksOfPlans }
{}

/// Safe breaks of `shape`, where the shaper's premises hold (`MayBeCutBy`).
pub fn law_safe_breaks()
    ensures { SafeBreaks }
{}
