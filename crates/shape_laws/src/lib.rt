//! Laws of `shape` on the texts that it reads.
//!
//! Plain texts are those that show each character as the font's glyph of it (`plain_texts`).
//!
//! Canonically equivalent texts (UAX 15, D70) have the same glyphs at the same positions under the shapers that normalize as
//! Unicode does.
//!
//! What a caller of `shape` can test of each premise of `law_equivalents_look_alike`:
//! - The tables are lawful: `UnicodeTables::law_fault`. Their chains end: the clause `shallow` of `decompose`. They decompose
//!   characters alone: the clause `characters` of `UnicodeTables::of_records`; the clause `sound` of `UnicodeTables::new`, by
//!   `law_checked_tables_split_characters`; `law_read_tables_split_characters` of those that are read.
//! - The texts are equivalent, and both are regular: `shape_premises::are_equivalent` and `is_regular`, on what was pushed
//!   (`law_pushed_texts_have_characters`).
//! - The line, after `guess_segment_properties`: `UnicodeBuffer::direction`, and `Direction::from_script` of its script.
//! - Settings and language: the readers of `UnicodeBuffer`. Features: `Feature::is_global` of each.
//! - The shaper: the field `shaper` of the plan that `hb_ot_shape_plan_t::new` makes for the text.
//! - The budget of nested lookups: more than 0 from `nested_lookups_left`, by `law_texts_have_enough_budget`. `shape` resets
//!   the budget at its end, so its result does not show this.
#![tactic(auto)]

pub mod breaks;
pub mod equivalent_texts;
pub mod plain_texts;
