//! What rules, lookups and the lookups of a text keep: the parts of the text, and that they reverse no list, depend on no length
//! limit, count the budget of nested lookups and take no more of it than is given, for all pauses that do.
//!
//! What a caller can test of their premises:
//! - The pauses are a shaper's: the laws of its trait say that they keep the parts of texts and reverse no list where
//!   `keeps_cluster_order` is true, and that they depend on no limit and count the budget.
//! - A lookup covers no glyph of a text, where lookups are left out: any test that misses none, as by digests.
//! - A text is within its limit: the clause `within` of `UnicodeBuffer::len`.
#![tactic(auto)]

pub mod breaks;
pub mod length_laws;
pub mod part_laws;
pub mod rule_length_laws;
pub mod rule_part_laws;
pub mod skipping_laws;
