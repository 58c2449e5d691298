//! Contexts and chained contexts: a rule that matches applies other lookups at indices of its match (rustybuzz:
//! hb/ot_layout_gsubgpos.rs, `apply_lookup`).
#![tactic(auto)]

pub mod chain;
pub mod counts;
pub mod match_indices;
pub mod neighbours;
pub mod records;
pub mod rules;

pub use chain::{ChainRule, fails_unflagged, match_chain};
pub use counts::glyph_count;
pub use match_indices::settle_indices;
pub use neighbours::{Neighbours, known_neighbours, next_context};
pub use records::{MAX_NESTING_LEVEL, begin_record, move_to_match_end, settle_match, spend};
pub use rules::{
    class_rule, coverage_rule, glyph_rule, is_tried_at, may_follow_at, rule_at, rules_at,
};
