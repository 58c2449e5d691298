//! Rules and pipeline stages on a buffer: what a rule of a layout table does at the cursor, the pauses between the
//! stages of lookups, what a stage leaves; the loops that most stages are, over glyphs and by syllables; lists cut into
//! syllables; and moves of glyphs within a text: a range that is merged and then permuted.
#![tactic(auto)]

pub mod cut_laws;
pub mod front_laws;
pub mod fronts;
pub mod glyphs;
pub mod groups;
pub mod laws;
pub mod layout_stages;
pub mod mask;
pub mod moves;
pub mod parts;
pub mod pause;
pub mod positions;
pub mod rewriting;
pub mod sorting;
pub mod syllable_fronts;
pub mod syllable_laws;
pub mod walk;
pub mod walks;
