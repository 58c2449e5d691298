//! What shaping makes of clusters: each pipeline stage keeps the parts of a text and the order of its clusters along
//! the line; at the levels that keep their order, the clusters of a shaped text are the parts that the reading's joins
//! and deletions leave.
//!
//! What a caller can test of their premises:
//! - What the text is shaped by keeps its parts (`law_shapers_keep_parts`): the tables are lawful, `UnicodeTables::law_fault`;
//!   the shaper keeps the order of clusters, `keeps_cluster_order` of the field `shaper` of the plan that
//!   `hb_ot_shape_plan_t::new` makes for the text; each syllable that the machines find ends after its start, as those of a
//!   `SyllableTable` do.
//! - The level is monotone: `UnicodeBuffer::cluster_level`.
//! - The text was pushed once: `UnicodeBuffer::new`, then one `push_str` that answers true
//!   (`law_pushed_texts_are_pushed_once`), and no call after it that changes clusters. So its clusters rise
//!   (`law_starts_rise`).
//! - A glyph is left: `GlyphBuffer::is_empty`.
#![tactic(auto)]

pub mod character_laws;
pub mod glyph_laws;
pub mod grapheme_laws;
pub mod line_laws;
pub mod position_laws;
pub mod reading_laws;
pub mod source_laws;
pub mod text_laws;
pub mod written_merges;
