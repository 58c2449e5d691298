//! Laws of all texts that are shaped.
//!
//! What a caller can test of their premises:
//! - A plan is one of a font: `hb_ot_shape_plan_t::new` made it for the font (`law_plans_serve_their_texts`).
//! - A plan serves a text: `fits` is true, and its fields `language_tags` and `user_features` are the tags of the text's
//!   language (`LanguageTags::tags` of `UnicodeBuffer::language`) and the features.
//! - No feature has a range: `Feature::is_global` of each.
//! - Two texts differ in clusters, level and requests for glyph flags alone: the readers of `UnicodeBuffer`.
//! - UNSAFE_TO_CONCAT was not requested: `UnicodeBuffer::flags`.
ghost use Rattle.shape_pipeline.specs.Laws.{EmptyTextsStay, GuessedTextsAreAlike, PlansGiveTheTextsShaping, PlansServeTexts, PlansServeTheirTexts, ResultsAreOne, ServingPlansGiveTheTextsShaping, TextsAreEven, TextsHaveNoConcat, TextsKeepNumbers, TextsLookAlike, TextsReadAlike};

use crate::reading_laws::{
    law_reading_keeps_numbers, law_results_are_even, law_results_have_no_concat,
    law_runs_read_alike,
};

/// What a text is shaped by with the plan for it (`hb_ot_shape_plan_t::new`) is what it is shaped by without a plan, so
/// each law of `shape` holds of `shape_with_plan` too.
#[tactic(auto, using(crate::proofs::Shaped::planned_for))]
pub fn law_plans_give_the_texts_shaping()
    ensures { PlansGiveTheTextsShaping }
{}

/// So it is with each plan of the font that serves the text: one that `fits` the text and keeps the tags of its language
/// (`language_tags`) and the same features (`user_features`).
pub fn law_serving_plans_give_the_texts_shaping()
    ensures { ServingPlansGiveTheTextsShaping }
{}

/// The plan for a text in a font (`hb_ot_shape_plan_t::new`) is a plan of the font, and it serves the text.
pub fn law_plans_serve_their_texts()
    ensures { PlansServeTheirTexts }
{}

/// A plan that was made for a text's language, and for its direction and script, guessed where they are not set, of the same
/// font and features, serves the text: however often it was used, `shape_with_plan` gives what `shape` gives, clusters and
/// flags of glyphs included, and both refuse for one cause.
#[tactic(auto, using(crate::proofs::Agreeing::plans_serve_texts))]
pub fn law_plans_serve_texts()
    ensures { PlansServeTexts }
{}

/// A text has one result, or one cause of a refusal, whatever was shaped before it.
#[tactic(auto, using(crate::proofs::Agreeing::results_are_one))]
pub fn law_results_are_one()
    ensures { ResultsAreOne }
{}

/// A text without characters is not refused, and stays as it is, with the limits as at first.
#[tactic(auto, using(crate::proofs::Texts::empty_texts_stay))]
pub fn law_empty_texts_stay()
    ensures { EmptyTextsStay }
{}

/// Where no feature is requested for a range of the text, two texts that differ only in their clusters, their cluster
/// level and their requests for glyph flags fail for the same cause, or have the same glyphs with the same positions.
#[tactic(auto, using(crate::proofs::Texts::texts_read_alike))]
pub fn law_texts_read_alike()
    ensures { TextsReadAlike }
{
    law_runs_read_alike();
}

/// Two texts that differ only in their clusters, their cluster level and their requests for glyph flags get the same
/// direction and script where these are guessed.
#[tactic(auto, using(crate::proofs::Agreeing::guessed_alike))]
pub fn law_guessed_texts_are_alike()
    ensures { GuessedTextsAreAlike }
{}

/// Texts as they are given, their directions and scripts guessed where they are not set: where no feature is asked for on a
/// part of the text, the results of two that differ in their clusters, their level and their requests for glyph flags alone
/// have the same glyphs with the same positions.
#[tactic(auto, using(crate::proofs::Agreeing::texts_look_alike))]
pub fn law_texts_look_alike()
    ensures { TextsLookAlike }
{
    law_texts_read_alike();
    law_guessed_texts_are_alike();
}

/// Each cluster number of a result is one of the text's, at every level and for every shaper.
#[tactic(auto, using(crate::proofs::Texts::texts_keep_numbers))]
pub fn law_texts_keep_numbers()
    ensures { TextsKeepNumbers }
{
    law_reading_keeps_numbers();
}

/// In a result all glyphs of a cluster that are neighbours have the same flags.
#[tactic(auto, using(crate::proofs::Texts::texts_are_even))]
pub fn law_texts_are_even()
    ensures { TextsAreEven }
{
    law_results_are_even();
}

/// UNSAFE_TO_CONCAT is set only where it was requested.
#[tactic(auto, using(crate::proofs::Texts::texts_have_no_concat))]
pub fn law_texts_have_no_concat()
    ensures { TextsHaveNoConcat }
{
    law_results_have_no_concat();
}
