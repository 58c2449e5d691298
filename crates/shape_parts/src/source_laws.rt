//! The slices of a shaped text, by what a caller of `shape` can test.
//!
//! What a caller tests of each premise of `law_results_have_source_slices`:
//! - The text is a `&str` that `push_str` appended once to a buffer without characters: `UnicodeBuffer::is_empty` before it,
//!   `Ok(true)` from it (`text_laws::law_pushed_texts_are_pushed_once`). Settings may be set before it or after it.
//! - The level is monotone: `UnicodeBuffer::cluster_level` is MonotoneGraphemes or MonotoneCharacters.
//! - The tables are lawful: `UnicodeTables::law_fault` is none.
//! - The shaper keeps the order of clusters: `keeps_cluster_order` of the field `shaper` of the plan that
//!   `hb_ot_shape_plan_t::new` makes for the text's direction and script (`guessed_direction`, `guessed_script`), its
//!   language and the font.
//! - The result is what `shape` answers, and `GlyphBuffer::is_empty` is false. By a plan that serves the text
//!   `shape_with_plan` shapes it by the same `Shaping` (`shape_pipeline::laws::law_serving_plans_give_the_texts_shaping`).
//! - The slices are what `source_slices` answers.
ghost use Rattle.shape_parts.specs.SourceTexts.{ResultsHaveSourceSlices};

use script_categories::SyllableSpans;
use shape_pipeline::laws::law_texts_are_even;

/// While a glyph is left, `slices_fit` is true of a result. The slices that `source_slices` answers join to the whole text
/// in the order of the line, each run has one set of glyph flags, and two characters share a slice exactly where joins or
/// deletions of the text's reading united their parts.
pub fn law_results_have_source_slices<P: SyllableSpans>(spans: &P)
    ensures { ResultsHaveSourceSlices (P.span_of spans.now) }
{
    law_texts_are_even();
}
