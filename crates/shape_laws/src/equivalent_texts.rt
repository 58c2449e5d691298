//! The laws of canonically equivalent texts.
ghost use Rattle.shape_laws.specs.Laws.{ChosenTextsAreEquivalent, EquivalentResultsAgree, EquivalentsAreChosenAlike, EquivalentsLookAlike, EquivalentsReadAlike, EquivalentsShapeAlike, PushedTextsHaveCharacters, ReadTextsHaveEnoughBudget, TextsBeginAsItems, TextsHaveEnoughBudget};
ghost use Rattle.shape_laws.specs.Shapers.{NormalizersAreOfUnicode, ShapersNormalizeAsUnicode};
ghost use Rattle.shape_laws.specs.Stages.{GlyphsDependOnNoLimit, GreaterBudgetsReadTheSame, RunsCountNested};

/// The universal and the Myanmar shaper decompose as far as they can and as Unicode does, compose nothing that Unicode doesn't,
/// leave marks in the order of their classes, and change no text before it is normalized.
pub fn law_shapers_normalize_as_unicode()
    ensures { ShapersNormalizeAsUnicode }
{}

/// The normalizer of a shaper that normalizes as Unicode does splits and composes within Unicode, for tables that decompose
/// characters alone.
pub fn law_normalizers_are_of_unicode()
    ensures { NormalizersAreOfUnicode }
{}

/// A text that was pushed into an empty buffer has its characters, also where direction and script are then guessed.
pub fn law_pushed_texts_have_characters()
    ensures { PushedTextsHaveCharacters }
{}

/// A text on a line from left to right whose first character is no combining mark begins as the items of its characters, and
/// with the budget of its length.
pub fn law_texts_begin_as_items()
    ensures { TextsBeginAsItems }
{}

/// Canonically equivalent texts have one normalised list, for each shaper that normalizes as Unicode does.
pub fn law_equivalents_are_chosen_alike()
    ensures { EquivalentsAreChosenAlike }
{}

/// The characters that normalizing leaves are canonically equivalent to those of the text, where none is a variation selector
/// and no run of marks is longer than is sorted.
pub fn law_chosen_texts_are_equivalent()
    ensures { ChosenTextsAreEquivalent }
{}

/// After the characters nothing depends on a text's length, where no rule of the shaper does.
pub fn law_glyphs_depend_on_no_limit()
    ensures { GlyphsDependOnNoLimit }
{}

/// A run of the stages on glyphs that leaves some of its budget shows how many nested lookups the text's reading applies.
pub fn law_runs_count_nested()
    ensures { RunsCountNested }
{}

/// A run of the stages on glyphs that leaves some of its budget reads the same at each greater one.
pub fn law_greater_budgets_read_the_same()
    ensures { GreaterBudgetsReadTheSame }
{}

/// A text has enough budget where `budget_left` gives more than 0, for each shaper that normalizes as Unicode does and of whose
/// rules none depends on a limit.
#[tactic(auto, using(crate::proofs::Budget::read_texts_have_enough_budget))]
pub fn law_read_texts_have_enough_budget()
    ensures { ReadTextsHaveEnoughBudget }
{}

/// A text has enough budget where `budget_left` gives more than 0, under the universal and the Myanmar shaper.
#[tactic(auto, using(crate::proofs::Budget::texts_have_enough_budget))]
pub fn law_texts_have_enough_budget()
    ensures { TextsHaveEnoughBudget }
{}

/// Canonically equivalent texts have the same glyphs at the same positions, for each shaper that normalizes as Unicode does and
/// of whose rules none depends on a limit.
pub fn law_equivalents_read_alike()
    ensures { EquivalentsReadAlike }
{}

/// Their results show the same glyphs at the same positions, by one plan or without one.
pub fn law_equivalent_results_agree()
    ensures { EquivalentResultsAgree }
{}

/// Canonically equivalent texts have the same glyphs at the same positions under the universal and the Myanmar shaper: with
/// the same settings and features for the whole text, on a line from left to right, with a mark after the first character, in
/// a font that has every character of their decompositions.
pub fn law_equivalents_shape_alike()
    ensures { EquivalentsShapeAlike }
{}

/// So `shape` leaves the same glyphs at the same positions for them, but for clusters and flags.
pub fn law_equivalents_look_alike()
    ensures { EquivalentsLookAlike }
{}
