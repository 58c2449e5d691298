//! Laws of every reading of a text.
//!
//! What a caller can test of their premises is what `laws` lists: they are the same, of states in place of buffers.
ghost use Rattle.shape_pipeline.specs.ReadingLaws.{ReadingKeepsNumbers, ResultsAreEven, ResultsHaveNoConcat, RunsReadAlike, SettingsReadAlike};

/// Where no feature is requested for a range of the text, two runs that differ only in their clusters, their cluster
/// level and their requests for glyph flags fail for the same cause, or have the same glyphs with the same positions.
#[tactic(auto, using(crate::proofs::Alike::runs_read_alike))]
pub fn law_runs_read_alike()
    ensures { RunsReadAlike }
{}

/// The settings that a reading depends on are the same, whatever the cluster level and the requests for glyph flags
/// are.
#[tactic(auto, using(crate::proofs::Alike::settings_read_alike))]
pub fn law_settings_read_alike()
    ensures { SettingsReadAlike }
{}

/// Each cluster number of a result is one of the text's, at every level and for every shaper.
#[tactic(auto, using(crate::proofs::Spread::reading_keeps_numbers))]
pub fn law_reading_keeps_numbers()
    ensures { ReadingKeepsNumbers }
{}

/// In a result all glyphs of a cluster that are neighbours have the same flags.
#[tactic(auto, using(crate::proofs::Spread::results_are_even))]
pub fn law_results_are_even()
    ensures { ResultsAreEven }
{}

/// UNSAFE_TO_CONCAT is set only where it was requested.
#[tactic(auto, using(crate::proofs::Spread::results_have_no_concat))]
pub fn law_results_have_no_concat()
    ensures { ResultsHaveNoConcat }
{}
